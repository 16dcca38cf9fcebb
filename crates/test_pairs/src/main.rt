// The evidence for the list of close pairs: it is held to a slow one. What it prints is held to the file `stdout`.
#![tactic(auto)]

mod compare;
mod counts;
mod far;
mod known;
mod lengths;
mod plants;
mod random;
mod slow;
mod ways;

use counts::Counts;
use std::io;
use test_outcome::{all_agree, all_noticed, print_all};
use test_slow::Memory;
use test_slow::close::Way;

fn run_told(rt: &impl Print, memory: &mut Memory) -> io::Result<()> {
    all_agree(
        rt,
        "runs that are told: ",
        known::try_all(Way::Right, memory),
    )?;
    all_noticed(rt, "wrong lists that were noticed: ", ways::try_all(memory))?;
    all_noticed(
        rt,
        "wrong expectations that were noticed: ",
        plants::try_all(memory),
    )?;
    Ok(())
}

fn run_others(rt: &impl Print, memory: &mut Memory, counts: &mut Counts) -> io::Result<()> {
    all_agree(rt, "lengths of slices: ", lengths::try_all(memory, counts))?;
    all_agree(
        rt,
        "events far apart, and 83300 pairs: ",
        far::try_all(memory, counts),
    )?;
    all_agree(rt, "traces at random: ", random::try_all(memory, counts))?;
    Ok(())
}

fn run(rt: &impl Print, memory: &mut Memory) -> io::Result<()> {
    let mut counts = Counts::new();
    run_told(rt, memory)?;
    run_others(rt, memory, &mut counts)?;
    print_all(
        rt,
        "  listed; refused 1 to 20; pairs in all:",
        &counts.numbers(),
    )
}

fn main(rt: HostRuntime) -> io::Result<()> {
    let mut memory = Memory::new(rt.alloc())?;
    run(&rt, &mut memory)
}
