// Prints of each case of standard input whether its pattern is one, and whether the value fits it.
#![tactic(auto)]

use std::io;
use std::io::{Read, Write};

// One case: the marks of value and pattern, and the two. Answers whether there was one.
fn next_case(from: &mut impl Read, to: &mut impl Write) -> io::Result<bool> {
    let mut marks = [0u8; 2];
    let mut value = [0u8; 256];
    let mut pattern = [0u8; 256];
    let Some(_) = cases::next_part(from, &mut marks)? else {
        return Ok(false);
    };
    let Some(m) = cases::next_part(from, &mut value)? else {
        return Ok(false);
    };
    let Some(n) = cases::next_part(from, &mut pattern)? else {
        return Ok(false);
    };
    let p = &pattern[..n];
    let well_formed = pattern::wildcard::well_formed(p);
    let fits = pattern::wildcard::fits(&value[..m], marks[0] == 1, p, marks[1] == 1);
    writeln!(to, "{} {}", well_formed as u8, fits as u8)?;
    Ok(true)
}

fn main(rt: HostRuntime) -> io::Result<()> {
    cases::run(rt, |from, to| next_case(from, to))
}
