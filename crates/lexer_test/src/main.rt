// Prints of each text on standard input its refusal number and place, or 0 and the count of its tokens; then of each token that was found its
// kind number, its start and its value: integers and reals by their 64 bits, names and strings by their bytes, names with two flags
// besides: whether there is an escape, and whether the name is `fold-case`.
#![tactic(auto)]

use std::io;
use std::io::{Read, Write};

fn put_bytes(to: &mut impl Write, part: &[u8], n: usize) -> io::Result<()> {
    write!(to, " ")?;
    if n <= part.len() {
        cases::print_hex(to, &part[..n])?;
    }
    Ok(())
}

fn put_name(to: &mut impl Write, text: &[u8], at: usize) -> io::Result<()> {
    let mut part = [0u8; 4096];
    lexer::copy_name(text, at, &mut part);
    put_bytes(to, &part, lexer::name_length(text, at))?;
    let escaped = lexer::name_escaped(text, at);
    let fold_case = lexer::name_is(text, at, b"fold-case");
    write!(to, " {} {}", escaped as u8, fold_case as u8)
}

fn put_string(to: &mut impl Write, text: &[u8], at: usize) -> io::Result<()> {
    let mut part = [0u8; 4096];
    lexer::copy_string(text, at, &mut part);
    put_bytes(to, &part, lexer::string_length(text, at))
}

fn put_value(to: &mut impl Write, text: &[u8], at: usize, kind: u8) -> io::Result<()> {
    match kind {
        1 | 2 => write!(to, " {:016x}", lexer::int_value(text, at).cast_unsigned()),
        3 => write!(
            to,
            " {:016x}",
            number::bits_of_real(lexer::real_value(text, at))
        ),
        4 => put_string(to, text, at),
        5 => put_name(to, text, at),
        _ => Ok(()),
    }
}

// No token's kind number is 0, so the tokens end where the kinds do.
fn put_tokens(to: &mut impl Write, text: &[u8], kinds: &[u8], starts: &[u16]) -> io::Result<()> {
    for (kind, start) in kinds.iter().zip(starts) {
        if *kind == 0 {
            break;
        }
        write!(to, " {kind} {start}")?;
        put_value(to, text, *start as usize, *kind)?;
    }
    Ok(())
}

fn answer(to: &mut impl Write, text: &[u8]) -> io::Result<()> {
    let mut kinds = [0u8; 4096];
    let mut starts = [0u16; 4096];
    match lexer::lex(text, &mut kinds, &mut starts) {
        Ok(n) => write!(to, "0 {n}")?,
        Err(r) => write!(to, "{} {}", r.number(), r.place())?,
    }
    put_tokens(to, text, &kinds, &starts)?;
    writeln!(to)
}

// One text. Answers whether there was one.
fn next_case(from: &mut impl Read, to: &mut impl Write) -> io::Result<bool> {
    let mut text = [0u8; 8192];
    let Some(n) = cases::next_part(from, &mut text)? else {
        return Ok(false);
    };
    answer(to, &text[..n])?;
    Ok(true)
}

fn main(rt: HostRuntime) -> io::Result<()> {
    cases::run(rt, |from, to| next_case(from, to))
}
