// Reads, looks up, writes and finds on the cases of standard input. A case is a part of one byte and its operands: 1, a notice, k (8 bytes);
// 2, a buffer, the named length (8 bytes), a name, a kind (2 bytes), a value; or 3, a notice, a name. Reading prints number, place, kind, name and value,
// and where it is not refused the kind and the value that lookup finds by the name; writing prints number, place, length and the buffer; finding prints
// number, place, index and the names looked at, after `other` if halving finds something else than lookup.
#![tactic(auto)]

ghost use Rattle.std.specs.Prelude.{◌≡◌};
ghost use Rattle.notice.specs.Layout.{check_of, Indexed};

use notice::FoundField;
use std::io;
use std::io::{Read, Write};

fn put_hex(to: &mut impl Write, s: &[u8]) -> io::Result<()> {
    cases::print_hex(to, s)?;
    write!(to, " ")
}

fn put_found(to: &mut impl Write, s: &[u8], name: &[u8]) -> io::Result<()>
    requires { check_of s.now ≡ Ok tt }
{
    match notice::lookup(s, name) {
        Some(FoundField { kind, start, len }) => {
            write!(to, "{kind} ")?;
            let a = start as usize;
            put_hex(to, notice::part(s, a, a + len as usize))
        }
        None => write!(to, "- - "),
    }
}

// Lookup asks for a notice found well-formed, as every one is of which a field was read.
fn read_case(to: &mut impl Write, s: &[u8], k: usize) -> io::Result<()> {
    match notice::read(s, k) {
        Ok(f) => {
            write!(to, "0 0 {} ", f.kind)?;
            put_hex(to, f.name)?;
            put_hex(to, f.value)?;
            if let Ok(()) = notice::check(s) {
                put_found(to, s, f.name)?;
            }
        }
        Err(r) => {
            write!(to, "{} {} 0 ", r.number(), r.place())?;
            put_hex(to, &[])?;
            put_hex(to, &[])?;
        }
    }
    writeln!(to)
}

fn write_case(
    to: &mut impl Write,
    buffer: &mut [u8],
    len: usize,
    name: &[u8],
    kind: u16,
    value: &[u8],
) -> io::Result<()> {
    match notice::write(buffer, len, name, kind, value) {
        Ok(n) => write!(to, "0 0 {n} ")?,
        Err(r) => write!(to, "{} {} {len} ", r.number(), r.place())?,
    }
    put_hex(to, buffer)?;
    writeln!(to)
}

// What was found, as a value that `==` compares.
fn parts(found: Option<FoundField>) -> Option<(u16, u16, u16)> {
    found.map(|f| (f.kind, f.start, f.len))
}

// Nothing is printed where halving and the walk by the starts find what lookup finds.
fn put_halved(to: &mut impl Write, s: &[u8], starts: &[u16; 64], name: &[u8]) -> io::Result<()>
    requires { (check_of s.now ≡ Ok tt) × Indexed s.now starts.now }
{
    let found = parts(notice::lookup(s, name));
    for other in [
        notice::lookup_in(s, starts, name),
        notice::lookup_along(s, starts, name),
    ] {
        if parts(other) != found {
            write!(to, "other ")?;
        }
    }
    Ok(())
}

fn put_indexed(to: &mut impl Write, s: &[u8], name: &[u8]) -> io::Result<()> {
    let mut starts: [u16; 64] = [0; 64];
    let layout = notice::index(s, &mut starts);
    match layout {
        Ok(()) => put_halved(to, s, &starts, name),
        Err(_) => Ok(()),
    }
}

fn find_case(to: &mut impl Write, s: &[u8], name: &[u8]) -> io::Result<()> {
    put_indexed(to, s, name)?;
    match notice::find(s, name) {
        Ok(f) => writeln!(to, "0 0 {} {} ", f.index.unwrap_or(64), f.looked),
        Err(r) => writeln!(to, "{} {} 64 0 ", r.number(), r.place()),
    }
}

fn next_read(from: &mut impl Read, to: &mut impl Write) -> io::Result<bool> {
    let mut s = [0u8; 20000];
    let mut k = [0u8; 8];
    let Some(n) = cases::next_part(from, &mut s)? else {
        return Ok(false);
    };
    let Some(_) = cases::next_part(from, &mut k)? else {
        return Ok(false);
    };
    read_case(to, &s[..n], word::read_u64(&k, 0) as usize)?;
    Ok(true)
}

// Only the last part has to be there: one that is not counts as empty before it.
fn next_write(from: &mut impl Read, to: &mut impl Write) -> io::Result<bool> {
    let mut buffer = [0u8; 20000];
    let mut len = [0u8; 8];
    let mut name = [0u8; 100];
    let mut kind = [0u8; 2];
    let mut value = [0u8; 2000];
    let m = cases::next_part(from, &mut buffer)?.unwrap_or(0);
    cases::next_part(from, &mut len)?;
    let n = cases::next_part(from, &mut name)?.unwrap_or(0);
    cases::next_part(from, &mut kind)?;
    let Some(v) = cases::next_part(from, &mut value)? else {
        return Ok(false);
    };
    write_case(
        to,
        &mut buffer[..m],
        word::read_u64(&len, 0) as usize,
        &name[..n],
        word::read_u16(&kind, 0),
        &value[..v],
    )?;
    Ok(true)
}

fn next_find(from: &mut impl Read, to: &mut impl Write) -> io::Result<bool> {
    let mut s = [0u8; 20000];
    let mut name = [0u8; 1000];
    let m = cases::next_part(from, &mut s)?.unwrap_or(0);
    let Some(n) = cases::next_part(from, &mut name)? else {
        return Ok(false);
    };
    find_case(to, &s[..m], &name[..n])?;
    Ok(true)
}

fn next_case(from: &mut impl Read, to: &mut impl Write) -> io::Result<bool> {
    let mut tag = [0u8; 1];
    let Some(_) = cases::next_part(from, &mut tag)? else {
        return Ok(false);
    };
    match tag[0] {
        1 => next_read(from, to),
        3 => next_find(from, to),
        _ => next_write(from, to),
    }
}

fn main(rt: HostRuntime) -> io::Result<()> {
    cases::run(rt, |from, to| next_case(from, to))
}
