// Judges the texts of standard input: prints the number and place of refusal 1, 3, 10, 6, 2, 4, 18, 5 or 7, or `0` and the entries, pool bytes and slots of the code.
#![tactic(auto)]

ghost use Rattle.postfix.specs.Answer.{Ready};

use postfix::Judged;
use refusal::Refusal;
use std::io;
use std::io::{Read, Write};
use translator::{read, write};

// The grammar's part: of marks that fit the parser.
fn parsed(text: &[u8], marks: &[u8]) -> Result<Judged, Refusal>
    requires { Ready marks.now 0 0 }
{
    let mut codes = [0u16; 512];
    postfix::parse(marks, &mut codes).map_err(|at| Refusal::Grammar(read::place(text, at)))
}

// What is refused of a text that keeps the grammar.
fn accepted(judged: Judged, patterns: bool) -> Result<Judged, Refusal> {
    if !judged.forms {
        return Err(Refusal::Call);
    }
    if !patterns {
        return Err(Refusal::Pattern);
    }
    if !(judged.kinds & judged.logic) {
        return Err(Refusal::Kind);
    }
    if 512 < judged.entries {
        return Err(Refusal::Entries);
    }
    Ok(judged)
}

// The entries, the pool's bytes and the slots of a text's code.
fn sizes_of(text: &[u8]) -> Result<(usize, usize, usize), Refusal> {
    let mut marks = [0u8; 4096];
    let mut places = [0u16; 512];
    let mut sizes = [0u16; 512];
    let reading = read::read(text, &mut marks, &mut places, &mut sizes)?;
    let n = reading.tokens;
    let judged = accepted(parsed(text, &marks[..n])?, reading.patterns)?;
    let pool = write::pool_length(&sizes, reading.operands.min(4096));
    Ok((judged.entries, pool, judged.depth))
}

// One text. Answers whether there was one.
fn next_case(from: &mut impl Read, to: &mut impl Write) -> io::Result<bool> {
    let mut text = [0u8; 8192];
    let Some(n) = cases::next_part(from, &mut text)? else {
        return Ok(false);
    };
    match sizes_of(&text[..n]) {
        Ok((entries, pool, slots)) => writeln!(to, "0 {entries} {pool} {slots} ")?,
        Err(r) => writeln!(to, "{} {} ", r.number(), r.place())?,
    }
    Ok(true)
}

fn main(rt: HostRuntime) -> io::Result<()> {
    cases::run(rt, |from, to| next_case(from, to))
}
