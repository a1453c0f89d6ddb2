// Prints of each string of standard input how many characters it has, or `-` if it is ill-formed.
#![tactic(auto)]

use std::io;
use std::io::{Read, Write};

// One string. Answers whether there was one.
fn next_case(from: &mut impl Read, to: &mut impl Write) -> io::Result<bool> {
    let mut s = [0u8; 1024];
    let Some(n) = cases::next_part(from, &mut s)? else {
        return Ok(false);
    };
    match utf8::count(&s[..n]) {
        Some(n) => writeln!(to, "{n}")?,
        None => writeln!(to, "-")?,
    }
    Ok(true)
}

fn main(rt: HostRuntime) -> io::Result<()> {
    cases::run(rt, |from, to| next_case(from, to))
}
