// The evidence: the judge against a slow one that stores all ancestors of all events. What it prints is held to the file `stdout`.
#![tactic(auto)]

mod chain_runs;
mod conflicts;
mod known;
mod large;
mod lengths;
mod lines;
mod plants;
mod random;

use random::{Counts, PAIRS, ROWS, TRACES};
use std::io;
use test_outcome::{all_agree, all_noticed, print, print_all};
use test_slow::Memory;

fn print_refusals(rt: &impl Print, refused: [usize; ROWS]) -> io::Result<()> {
    for (row, count) in refused.iter().enumerate().skip(1) {
        println!(rt; "  refused {row}: {count}")?;
    }
    Ok(())
}

// The races by the kind of their earlier access, each with a later read, write and sum.
fn print_races(rt: &impl Print, counts: &Counts) -> io::Result<()> {
    print_all(
        rt,
        "    of a read with a later read, write, sum:",
        &counts.races_of_read,
    )?;
    print_all(rt, "    of a write:", &counts.races_of_write)?;
    print_all(rt, "    of a sum:", &counts.races_of_sum)
}

fn print_judge(rt: &impl Print, counts: &Counts) -> io::Result<()> {
    print(rt, "  events of a trace, at most: ", test_slow::EVENTS)?;
    print(rt, "  events in all: ", counts.events)?;
    print(rt, "  sums among them: ", counts.sums)?;
    print(rt, "  clean: ", counts.clean)?;
    print(rt, "  race: ", counts.races)?;
    print_races(rt, counts)?;
    print_all(rt, "  links, from 0 to 10:", &counts.links)?;
    print_refusals(rt, counts.refused)?;
    print_all(
        rt,
        "  refused 12 of a halt that names 0, itself, another task, no task:",
        &counts.halts,
    )
}

fn print_ordering(rt: &impl Print, counts: &Counts) -> io::Result<()> {
    print(rt, "pairs of each trace: ", PAIRS)?;
    print(rt, "  yes: ", counts.yes)?;
    print(rt, "  no: ", counts.no)?;
    print_refusals(rt, counts.not_ordered)
}

fn try_random(rt: &impl Print, memory: &mut Memory) -> io::Result<()> {
    let trials = random::try_all(memory);
    all_agree(rt, "traces at random: ", trials.map(|_| TRACES))?;
    if let Ok(counts) = trials {
        print_judge(rt, &counts)?;
        print_ordering(rt, &counts)?;
        println!(rt; "all answers and all cells agree")?;
    }
    Ok(())
}

// The runs that are told, each with its answer.
fn try_told(rt: &impl Print, memory: &mut Memory) -> io::Result<bool> {
    Ok(
        all_agree(
            rt,
            "runs that document 01 tells, and runs for the halts: ",
            known::try_all(memory),
        )? && all_agree(rt, "runs for the links: ", known::try_chains(memory))?
            && all_agree(rt, "runs for the sums: ", known::try_sums(memory))?
            && all_agree(
                rt,
                "pairs of kinds of access, ordered and not: ",
                conflicts::try_all(memory),
            )?
            && all_agree(rt, "runs with long chains: ", chain_runs::try_all(memory))?,
    )
}

// What is told wrong.
fn try_wrong(rt: &impl Print, memory: &mut Memory) -> io::Result<bool> {
    Ok(
        all_noticed(
            rt,
            "runs told wrong that were noticed: ",
            known::try_wrong(memory),
        )? && all_noticed(
            rt,
            "wrong expectations that were noticed: ",
            plants::try_all(memory),
        )?,
    )
}

// The largest calls.
fn try_large(rt: &impl Print, memory: &mut Memory) -> io::Result<bool> {
    Ok(
        all_agree(rt, "lengths of slices: ", lengths::try_all(memory))?
            && all_agree(rt, "calls on 32768 events: ", large::try_all(memory))?
            && all_agree(rt, "lines of 1024 tasks: ", lines::try_all(memory))?,
    )
}

fn run(rt: &impl Print, memory: &mut Memory) -> io::Result<()> {
    if try_told(rt, memory)? && try_wrong(rt, memory)? && try_large(rt, memory)? {
        try_random(rt, memory)?;
    }
    Ok(())
}

fn main(rt: HostRuntime) -> io::Result<()> {
    let mut memory = Memory::new(rt.alloc())?;
    run(&rt, &mut memory)
}
