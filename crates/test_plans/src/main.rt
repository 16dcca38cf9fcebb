// The evidence for the reader of plans: it is held to a slow one, written again from document 02's K4, and its traces to what plans mean. What is printed is
// held to the file `stdout`.
#![tactic(auto)]

mod compare;
mod drawn;
mod known;
mod letters;
mod meaning;
mod plants;
mod recipes;
mod rows;
mod slow_reader;
mod slow_trace;
mod spans;
mod texts;
mod tries;
mod want;
mod wrong;

use compare::Tally;
use std::io;
use test_outcome::{all_agree, all_noticed, print_all};
use tries::{Desk, Group};

fn print_rows(rt: &impl Print, tally: Tally) -> io::Result<()> {
    let counts = [tally.accepted, tally.stray, tally.deep, tally.large];
    print_all(rt, "  accepted, refused 17, 18, 19:", &counts)
}

fn print_meanings(rt: &impl Print, tally: Tally) -> io::Result<()> {
    let traces = [tally.clean, tally.races];
    let pairs = [tally.reach, tally.apart];
    print_all(rt, "  traces that are clean, that race:", &traces)?;
    print_all(
        rt,
        "  pairs of leaves, the first reaches the second, or not:",
        &pairs,
    )
}

fn tell(rt: &impl Print, name: &str, group: Group, desk: &mut Desk) -> io::Result<()> {
    all_agree(rt, name, desk.try_all(group))?;
    print_rows(rt, desk.tally)
}

fn run_told(rt: &impl Print, desk: &mut Desk) -> io::Result<()> {
    tell(
        rt,
        "texts and slices whose answers are told: ",
        Group::Answers,
        desk,
    )?;
    tell(rt, "texts whose traces are told: ", Group::Traces, desk)
}

fn run_words(rt: &impl Print, desk: &mut Desk) -> io::Result<()> {
    tell(
        rt,
        "all texts of up to 6 of S P ( , ) r 0 1: ",
        Group::Bytes,
        desk,
    )?;
    tell(
        rt,
        "all texts of up to 6 of r w s 0 1 2 3 4 9: ",
        Group::Numbers,
        desk,
    )?;
    tell(
        rt,
        "all texts of up to 9 of S( P( , ) w1: ",
        Group::Tokens,
        desk,
    )
}

fn run_drawn(rt: &impl Print, desk: &mut Desk) -> io::Result<()> {
    tell(rt, "plans at random: ", Group::Drawn, desk)?;
    tell(rt, "plans at random with a fault: ", Group::Damaged, desk)?;
    tell(
        rt,
        "plans at random whose traces are judged: ",
        Group::Meanings,
        desk,
    )?;
    print_meanings(rt, desk.tally)
}

fn main(rt: HostRuntime) -> io::Result<()> {
    let mut desk = Desk::new();
    run_told(&rt, &mut desk)?;
    run_words(&rt, &mut desk)?;
    run_drawn(&rt, &mut desk)?;
    all_noticed(
        &rt,
        "wrong rules that were noticed: ",
        desk.try_all(Group::Plants),
    )?;
    Ok(())
}
