// The evidence for the conversion of stored traces: it is held to a slow one, and the judge's verdict after it to that of the slow judge before it, with row 12 as
// it was. What it prints is held to the file `stdout`.
#![tactic(auto)]

mod compare;
mod known;
mod lengths;
mod plants;
mod random;
mod slow;

use random::Counts;
use slow::Way;
use std::io;
use test_outcome::{all_agree, all_noticed, print_all};
use test_slow::Memory;

fn run_told(rt: &impl Print, memory: &mut Memory) -> io::Result<()> {
    all_agree(
        rt,
        "runs that are told: ",
        known::try_all(Way::Right, memory),
    )?;
    all_noticed(
        rt,
        "wrong conversions that were noticed: ",
        known::try_wrong(memory),
    )?;
    all_noticed(
        rt,
        "wrong expectations that were noticed: ",
        plants::try_all(memory),
    )?;
    Ok(())
}

fn run_others(rt: &impl Print, memory: &mut Memory, counts: &mut Counts) -> io::Result<()> {
    all_agree(rt, "lengths of slices: ", lengths::try_all(memory))?;
    all_agree(
        rt,
        "a nest of 1024 tasks, and traces at random: ",
        random::try_all(memory, counts),
    )?;
    Ok(())
}

fn run(rt: &impl Print, memory: &mut Memory) -> io::Result<()> {
    let mut counts = Counts::new();
    run_told(rt, memory)?;
    run_others(rt, memory, &mut counts)?;
    print_all(
        rt,
        "  converted, refused 1, 2, 3; operands that changed; clean, race, before and after:",
        &counts.numbers(),
    )
}

fn main(rt: HostRuntime) -> io::Result<()> {
    let mut memory = Memory::new(rt.alloc())?;
    run(&rt, &mut memory)
}
