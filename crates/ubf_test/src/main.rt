// Reads UBF(A) texts and writes notices of standard input into a lent part of a buffer. A case is two parts: a byte, `r` to read or `w` to write, with the lent part's length (4 bytes); and the text or the notice.
// Prints number, place and length, the result, and whether every later byte of the buffer, also past the lent part, is as it was.
#![tactic(auto)]

use refusal::Refusal;
use std::io;
use std::io::{Read, Write};

// Reads the text, or writes the notice.
fn answer(reading: bool, input: &[u8], lent: &mut [u8]) -> Result<usize, Refusal> {
    if reading {
        ubf::read(input, lent)
    } else {
        ubf::write(input, lent)
    }
}

// Prints number, place and the result's length. Answers the length.
fn put_answer(to: &mut impl Write, answer: Result<usize, Refusal>) -> io::Result<usize> {
    match answer {
        Ok(len) => {
            write!(to, "0 0 {len} ")?;
            Ok(len)
        }
        Err(r) => {
            write!(to, "{} {} 0 ", r.number(), r.place())?;
            Ok(0)
        }
    }
}

// One case. Answers whether there was one.
fn next_case(from: &mut impl Read, to: &mut impl Write) -> io::Result<bool> {
    let mut head = [0u8; 5];
    let mut input = [0u8; 131072];
    let mut filled = [cases::FILL; 131136];
    let buffer = &mut filled[..];
    let Some(_) = cases::next_part(from, &mut head)? else {
        return Ok(false);
    };
    let Some(n) = cases::next_part(from, &mut input)? else {
        return Ok(false);
    };
    let room = word::read_u32(&head, 1) as usize;
    if buffer.len() < room {
        return Ok(false);
    }
    let a = answer(head[0] == b'r', &input[..n], &mut buffer[..room]);
    let len = put_answer(to, a)?;
    cases::print_written(to, buffer, len)?;
    Ok(true)
}

fn main(rt: HostRuntime) -> io::Result<()> {
    cases::run(rt, |from, to| next_case(from, to))
}
