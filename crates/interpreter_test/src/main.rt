// Runs each table on standard input on the notice after it, and prints number, place, verdict, steps and the first undecided entry.
#![tactic(auto)]

use std::io;
use std::io::{Read, Write};
use truth::Truth;

fn name_of(t: Truth) -> &'static str {
    match t {
        Truth::True => "true",
        Truth::Bottom => "bottom",
        Truth::False => "false",
    }
}

fn answer(to: &mut impl Write, table: &[u8], notice: &[u8]) -> io::Result<()> {
    match interpreter::run(table, notice) {
        Ok(ran) => writeln!(
            to,
            "0 0 {} {} {}",
            name_of(ran.verdict),
            ran.steps,
            ran.undecided
        ),
        Err(r) => writeln!(to, "{} {} bottom 0 65535", r.number(), r.place()),
    }
}

// One table and one notice. Answers whether there were both.
fn next_case(from: &mut impl Read, to: &mut impl Write) -> io::Result<bool> {
    let mut table = [0u8; 16384];
    let mut notice = [0u8; 24576];
    let Some(n) = cases::next_part(from, &mut table)? else {
        return Ok(false);
    };
    let Some(k) = cases::next_part(from, &mut notice)? else {
        return Ok(false);
    };
    answer(to, &table[..n], &notice[..k])?;
    Ok(true)
}

fn main(rt: HostRuntime) -> io::Result<()> {
    cases::run(rt, |from, to| next_case(from, to))
}
