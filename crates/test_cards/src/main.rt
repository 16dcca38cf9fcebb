// The evidence for the cards: the judge with cards against the slow judge, and each card against one that is counted over all events. What it prints is held to
// the file `stdout`.
#![tactic(auto)]

mod chain_runs;
mod compare;
mod conflicts;
mod filled;
mod known;
mod large;
mod lending;
mod lengths;
mod plants;
mod random;
mod written;

use random::{Counts, TRACES};
use std::io;
use test_outcome::{all_agree, all_noticed, print, print_all};
use test_slow::Memory;

fn print_counts(rt: &impl Print, counts: &Counts) -> io::Result<()> {
    print(rt, "  events in all: ", counts.events)?;
    print(
        rt,
        "  numbers of records for each: ",
        lending::RECORDS.len(),
    )?;
    print(rt, "  clean: ", counts.clean)?;
    print(rt, "  race: ", counts.races)?;
    print_all(rt, "  links, from 0 to 10:", &counts.links)?;
    for (row, count) in counts.refused.iter().enumerate().skip(1) {
        println!(rt; "  refused {row}: {count}")?;
    }
    Ok(())
}

fn try_random(rt: &impl Print, memory: &mut Memory) -> io::Result<()> {
    let trials = random::try_all(memory);
    all_agree(rt, "traces at random: ", trials.map(|_| TRACES))?;
    if let Ok(counts) = trials {
        print_counts(rt, &counts)?;
        println!(rt; "all answers, all cards and all cells agree")?;
    }
    Ok(())
}

fn try_told(rt: &impl Print, memory: &mut Memory) -> io::Result<bool> {
    Ok(
        all_agree(
            rt,
            "runs that document 01 tells, and runs for the halts: ",
            known::try_all(memory),
        )? && all_agree(rt, "runs for the links: ", known::try_chains(memory))?
            && all_agree(rt, "runs for the sums: ", known::try_sums(memory))?
            && all_agree(
                rt,
                "pairs of kinds of access, ordered and not: ",
                conflicts::try_all(memory),
            )?
            && all_agree(rt, "runs with long chains: ", chain_runs::try_all(memory))?,
    )
}

fn try_others(rt: &impl Print, memory: &mut Memory) -> io::Result<bool> {
    Ok(
        all_agree(rt, "lengths of slices: ", lengths::try_all(memory))?
            && all_agree(
                rt,
                "cards written out, right and wrong: ",
                written::try_all(),
            )?
            && all_noticed(
                rt,
                "wrong expectations that were noticed: ",
                plants::try_all(memory),
            )?
            && all_agree(rt, "calls on 32768 events: ", large::try_all(memory))?,
    )
}

fn run(rt: &impl Print, memory: &mut Memory) -> io::Result<()> {
    if try_told(rt, memory)? && try_others(rt, memory)? {
        try_random(rt, memory)?;
    }
    Ok(())
}

fn main(rt: HostRuntime) -> io::Result<()> {
    let mut memory = Memory::new(rt.alloc())?;
    run(&rt, &mut memory)
}
