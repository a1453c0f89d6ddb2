// Translates each text on standard input into a lent part of a buffer, in an edition: the part's length and the edition's number stand before the text.
// Prints number, place and table length, the table, and whether every later byte of the buffer, also past the lent part, is as it was.
#![tactic(auto)]

use std::io;
use std::io::{Read, Write};

// One length with an edition's number, and one text. Answers whether there were both.
fn next_case(from: &mut impl Read, to: &mut impl Write) -> io::Result<bool> {
    let mut head = [0u8; 12];
    let mut text = [0u8; 8192];
    let mut buffer = [cases::FILL; 65600];
    let Some(_) = cases::next_part(from, &mut head)? else {
        return Ok(false);
    };
    let Some(n) = cases::next_part(from, &mut text)? else {
        return Ok(false);
    };
    let room = word::read_u32(&head, 0) as usize;
    let edition = word::read_u64(&head, 4) as usize;
    if buffer.len() < room {
        return Ok(false);
    }
    match translator::translate(edition, &text[..n], &mut buffer[..room]) {
        Ok(len) => {
            write!(to, "0 0 {len} ")?;
            cases::print_written(to, &buffer, len)?;
        }
        Err(r) => {
            write!(to, "{} {} 0 ", r.number(), r.place())?;
            cases::print_written(to, &buffer, 0)?;
        }
    }
    Ok(true)
}

fn main(rt: HostRuntime) -> io::Result<()> {
    cases::run(rt, |from, to| next_case(from, to))
}
