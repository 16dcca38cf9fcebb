// Texts to go by: each is put through the program's answer, and its answer is printed under its name.
#![tactic(auto)]

mod build;

use answer::{OUTPUT_BYTES, TEXT_BYTES};
use std::io;

// Longer answers are printed by their length and a checksum.
const SHORT: usize = 100;

// The bytes of an answer, or how many there are and their checksum.
fn print_answer(rt: &impl Print, answer: &[u8]) -> io::Result<()> {
    let length = answer.len();
    if length <= SHORT {
        return rt.write_all(answer);
    }
    let checksum = build::checksum(answer);
    println!(rt; "{length} bytes, checksum {checksum}")
}

fn show(rt: &impl Print, name: &str, text: &[u8]) -> io::Result<()> {
    let mut out = [0u8; OUTPUT_BYTES];
    let used = answer::answer(text, &mut out);
    println!(rt; "# {name}")?;
    print_answer(rt, &out[..used])
}

// A text of a first part, a line over and over, and a last part.
fn show_long(
    rt: &impl Print,
    name: &str,
    first: &[u8],
    line: &[u8],
    times: usize,
    last: &[u8],
) -> io::Result<()> {
    let mut text = [0u8; TEXT_BYTES];
    let used = build::build(&mut text, first, line, times, last);
    show(rt, name, &text[..used])
}

fn documented(rt: &impl Print) -> io::Result<()> {
    show(
        rt,
        "document 01's example",
        b"T0|fork(T1)|10\nT1|w(V5)|20\nT0|r(V5)|30\n",
    )?;
    show(rt, "no text", b"")?;
    show(
        rt,
        "a write after an unordered read",
        b"T0|fork(T1)|1\nT1|r(V5)|2\nT0|w(V5)|3\n",
    )?;
    show(
        rt,
        "two writes before an unordered read",
        b"T0|fork(T1)|1\nT1|w(V5)|2\nT1|w(V5)|3\nT0|r(V5)|4\n",
    )?;
    show(
        rt,
        "a join past the left neighbour",
        b"T0|fork(T1)|1\nT0|fork(T2)|2\nT0|join(T1)|3\n",
    )?;
    show(
        rt,
        "joins from the left neighbour on",
        b"T0|fork(T1)|1\nT0|fork(T2)|2\nT0|join(T2)|3\nT0|join(T1)|4\n",
    )?;
    show(
        rt,
        "halts of two tasks, top first",
        b"T0|fork(T1)|1\nT1|fork(T2)|2\nT2|w(V5)|3\nT0|r(V5)|4\n",
    )?;
    show(
        rt,
        "halts of three tasks, of two and then of one",
        b"T0|fork(T1)|1\nT1|fork(T2)|2\nT2|fork(T3)|3\nT3|w(V5)|4\nT1|join(T2)|5\nT1|join(T3)|6\nT1|r(V5)|7\nT0|join(T1)|8\n",
    )
}

// Runs that a judge gets wrong which follows Figure 6, remembers the last reader only, lets only descendants be joined, or takes a paused parent's
// accesses for unordered.
fn deceiving(rt: &impl Print) -> io::Result<()> {
    show(
        rt,
        "two unordered reads",
        b"T0|fork(T1)|1\nT1|r(V5)|2\nT0|r(V5)|3\n",
    )?;
    show(
        rt,
        "an earlier reader",
        b"T0|fork(T1)|1\nT1|r(V5)|2\nT0|fork(T2)|3\nT2|r(V5)|4\nT0|join(T2)|5\nT0|w(V5)|6\n",
    )?;
    show(
        rt,
        "a join by a sibling",
        b"T0|fork(T1)|1\nT1|r(V7)|2\nT0|r(V7)|3\nT0|fork(T2)|4\nT2|join(T1)|5\nT0|w(V7)|6\n",
    )?;
    show(
        rt,
        "the same, joined",
        b"T0|fork(T1)|1\nT1|r(V7)|2\nT0|r(V7)|3\nT0|fork(T2)|4\nT2|join(T1)|5\nT0|join(T2)|6\nT0|w(V7)|7\n",
    )?;
    show(
        rt,
        "a paused parent's write",
        b"T0|w(V5)|1\nT0|fork(T1)|2\nT1|w(V5)|3\n",
    )
}

// A text for each row that a text can meet.
fn rows(rt: &impl Print) -> io::Result<()> {
    show(rt, "row 7", b"T0|r(V1)|1\nT1|r(V0)|2\n")?;
    show(rt, "row 8", b"T0|w(V1024)|1\n")?;
    show(rt, "row 9", b"T0|fork(T1024)|1\n")?;
    show(rt, "row 10", b"T0|fork(T0)|1\n")?;
    show(rt, "row 11", b"T0|join(T1)|1\n")?;
    show(rt, "row 14", b"T0|r(5)|1\n")?;
    show(
        rt,
        "the greatest location and task",
        b"T0|w(V1023)|65535\nT0|fork(T1023)|65535\n",
    )
}

fn malformed(rt: &impl Print) -> io::Result<()> {
    show(rt, "no line feed at the end", b"T0|r(V5)|1\nT0|r(V5)|1")?;
    show(rt, "an empty line", b"T0|r(V5)|1\n\nT0|r(V5)|1\n")?;
    show(rt, "a carriage return", b"T0|r(V5)|1\r\n")?;
    show(rt, "a blank", b"T0 |r(V5)|1\n")?;
    show(rt, "a NUL", b"T0|r(V5)|1\n\0")?;
    show(rt, "a leading zero", b"T0|r(V05)|1\n")?;
    show(rt, "65536", b"T0|r(V5)|65536\n")?;
    show(rt, "an unknown operation", b"T0|acq(L5)|1\n")?;
    show(rt, "a sum, which has no line", b"T0|s(V1)|1\n")
}

fn limits(rt: &impl Print) -> io::Result<()> {
    show_long(rt, "2,048 events", b"", b"T0|r(V1)|1\n", 2048, b"")?;
    show_long(rt, "2,049 events", b"", b"T0|r(V1)|1\n", 2049, b"")?;
    show_long(
        rt,
        "a malformed line after 2,048 events",
        b"",
        b"T0|r(V1)|1\n",
        2048,
        b"T",
    )?;
    show_long(
        rt,
        "2,048 lines of 26 bytes and one more",
        b"",
        b"T65535|fork(T65535)|65535\n",
        2049,
        b"",
    )?;
    show_long(
        rt,
        "orders of 2,048 events",
        b"T0|fork(T1)|1\nT1|w(V5)|2\n",
        b"T0|r(V6)|3\n",
        2044,
        b"T0|r(V5)|4\n",
    )
}

fn main(rt: HostRuntime) -> io::Result<()> {
    documented(&rt)?;
    deceiving(&rt)?;
    rows(&rt)?;
    malformed(&rt)?;
    limits(&rt)
}
