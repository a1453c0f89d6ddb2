// Prints document 01's truth table by the operators of `truth`, the words of a small buffer, and the comparisons of `octets` on the cases of standard input.
#![tactic(auto)]

use std::io;
use std::io::{BufReader, BufWriter, Read, Write};
use truth::Truth;

const TRUTHS: [Truth; 3] = [Truth::True, Truth::Bottom, Truth::False];

fn name_of(t: Truth) -> &'static str {
    match t {
        Truth::True => "T",
        Truth::Bottom => "bot",
        Truth::False => "F",
    }
}

// A row of the table: two truth values, and what each operator gives on them.
fn put_row(to: &mut impl Write, a: Truth, b: Truth) -> io::Result<()> {
    for t in [
        a,
        b,
        truth::not(a),
        truth::and(a, b),
        truth::or(a, b),
        truth::xor(a, b),
    ] {
        write!(to, "{} ", name_of(t))?;
    }
    writeln!(to)
}

fn put_table(to: &mut impl Write) -> io::Result<()> {
    for a in TRUTHS {
        for b in TRUTHS {
            put_row(to, a, b)?;
        }
    }
    Ok(())
}

fn put_words(to: &mut impl Write) -> io::Result<()> {
    let mut s = [0u8; 16];
    word::write_u16(&mut s, 0, 0xbeef);
    word::write_i32(&mut s, 2, -2);
    word::write_i64(&mut s, 6, -9223372036854775808);
    cases::print_hex(to, &s)?;
    writeln!(to)?;
    writeln!(
        to,
        "{} {} {} {} {} ",
        word::read_u16(&s, 0),
        word::read_u32(&s, 2),
        word::read_u64(&s, 6),
        word::read_i64(&s, 6).cast_unsigned(),
        (word::read_i32(&s, 2) == -2) as u8
    )
}

fn compare(to: &mut impl Write, s: &[u8], s_mark: bool, t: &[u8], t_mark: bool) -> io::Result<()> {
    for holds in [
        octets::same(s, s_mark, t, t_mark),
        octets::before(s, s_mark, t, t_mark),
        octets::earlier(s, t),
        octets::begins(s, s_mark, t, t_mark),
        octets::contains(s, s_mark, t, t_mark),
        octets::ends(s, s_mark, t, t_mark),
    ] {
        write!(to, "{} ", holds as u8)?;
    }
    writeln!(to)
}

// One case: the two marks, and the two strings. Answers whether there was one.
fn next_case(from: &mut impl Read, to: &mut impl Write) -> io::Result<bool> {
    let mut marks = [0u8; 2];
    let mut s = [0u8; 1024];
    let mut t = [0u8; 1024];
    let Some(_) = cases::next_part(from, &mut marks)? else {
        return Ok(false);
    };
    let Some(m) = cases::next_part(from, &mut s)? else {
        return Ok(false);
    };
    let Some(n) = cases::next_part(from, &mut t)? else {
        return Ok(false);
    };
    compare(to, &s[..m], marks[0] == 1, &t[..n], marks[1] == 1)?;
    Ok(true)
}

fn main(rt: HostRuntime) -> io::Result<()> {
    let mut from = BufReader::new(rt.alloc(), rt.reader())?;
    let mut to = BufWriter::new(rt.alloc(), io::writer(&rt))?;
    put_table(&mut to)?;
    put_words(&mut to)?;
    cases::all(&mut from, &mut to, |from, to| next_case(from, to))?;
    to.flush()
}
