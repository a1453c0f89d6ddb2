// Runs every op on the cases of standard input: a pool, a notice, then a part for each case. A case is some entries of 12 bytes, as in a table.
// All but the last give the operands in their order: ops 1..5, with 256 added where the value is folded, or 0 for the truth value of rank a.
// The last is the op to run; 0 gives its one operand. An answer is a truth value, or a type and its bits or bytes in hex.
#![tactic(auto)]

use notice::FoundField;
use opcode::groups::Group;
use opcode::{Change, Edition, Many, groups};
use std::io;
use std::io::{BufReader, BufWriter, Read, Write};
use truth::Truth;
use value::{Held, Piece, Slot, Typed};

// The bytes in hex, under their folding mark.
fn put_piece(to: &mut impl Write, pool: &[u8], notice: &[u8], p: Piece) -> io::Result<()> {
    let s = value::fetch(pool, notice, p);
    if s.is_empty() {
        write!(to, "-")?;
    }
    for b in s {
        write!(to, "{:02x}", octets::fold(p.folded, *b))?;
    }
    Ok(())
}

fn put_value(to: &mut impl Write, pool: &[u8], notice: &[u8], v: Typed) -> io::Result<()> {
    match v {
        Typed::Bottom => write!(to, "bottom"),
        Typed::Int32(x) => write!(to, "int32 {:016x}", x.cast_unsigned()),
        Typed::Int64(x) => write!(to, "int64 {:016x}", x.cast_unsigned()),
        Typed::Real(x) => write!(to, "real64 {:016x}", number::bits_of_real(x)),
        Typed::Text(p) => {
            write!(to, "string ")?;
            put_piece(to, pool, notice, p)
        }
        Typed::Opaque(p) => {
            write!(to, "opaque ")?;
            put_piece(to, pool, notice, p)
        }
    }
}

fn put_slot(to: &mut impl Write, pool: &[u8], notice: &[u8], s: Slot) -> io::Result<()> {
    match s.held {
        Held::Logic(Truth::True) => write!(to, "true")?,
        Held::Logic(Truth::Bottom) => write!(to, "bottom")?,
        Held::Logic(Truth::False) => write!(to, "false")?,
        Held::Value(v) => put_value(to, pool, notice, v)?,
    }
    writeln!(to)
}

fn truth_of(rank: u16) -> Truth {
    match rank {
        0 => Truth::False,
        1 => Truth::Bottom,
        _ => Truth::True,
    }
}

fn folded(pool: &[u8], notice: &[u8], number: u16, s: Slot) -> Slot {
    if number < 256 {
        return s;
    }
    value::change(pool, notice, Change::FoldCase, s)
}

// A name that lies beyond the pool, and in a notice that is not well-formed every name, is missing.
fn load_name(pool: &[u8], notice: &[u8], a: u16, b: u64) -> Slot {
    let missing = value::missing();
    if pool.len() < (b % 65536) as usize + a as usize {
        return missing;
    }
    let mut starts: [u16; 64] = [0; 64];
    let layout = notice::index(notice, &mut starts);
    match layout {
        Ok(()) => {
            let found = value::find_name(pool, notice, &starts, a, b);
            match found {
                Some(FoundField { kind, start, len }) => value::field(notice, kind, start, len),
                None => missing,
            }
        }
        Err(_) => missing,
    }
}

// The operand of entry i; bottom where there is none.
fn operand(pool: &[u8], notice: &[u8], entries: &[u8], i: usize) -> Slot {
    if entries.len() / 12 <= i {
        return value::decided(Truth::Bottom);
    }
    let number = word::read_u16(entries, i * 12);
    let a = word::read_u16(entries, i * 12 + 2);
    let b = word::read_u64(entries, i * 12 + 4);
    let s = match groups::group_of(number % 256) {
        Group::Int32 => value::load_int32(b),
        Group::Int64 => value::load_int64(b),
        Group::Real64 => value::load_real64(b),
        Group::Text => value::load_text(a, b),
        Group::Name => load_name(pool, notice, a, b),
        _ => return value::decided(truth_of(a)),
    };
    folded(pool, notice, number, s)
}

// The later operands, one after the other.
fn many(pool: &[u8], notice: &[u8], op: Many, entries: &[u8], count: usize) -> Slot {
    let first = operand(pool, notice, entries, 0);
    let mut known = value::start(op, first);
    for i in 1..count {
        let next = operand(pool, notice, entries, i);
        known = value::more(pool, notice, op, first, known, next);
    }
    value::decided(known)
}

// The op of a number below 256 on the operands.
fn operate(
    pool: &[u8],
    notice: &[u8],
    edition: Edition,
    number: u16,
    entries: &[u8],
    count: usize,
) -> Slot {
    let s = operand(pool, notice, entries, 0);
    let t = operand(pool, notice, entries, 1);
    match groups::group_of(number) {
        Group::Change => value::change(pool, notice, groups::change_of(number), s),
        Group::Combine => value::combine(edition, groups::combine_of(number), s, t),
        Group::Equality => value::equality(pool, notice, groups::is_not_equal(number), s, t),
        Group::Order => value::ordered(groups::order_of(number), s, t),
        Group::Not => value::not(s),
        Group::And => value::and(s, t),
        Group::Xor => value::xor(s, t),
        Group::Or => value::or(s, t),
        Group::Test => value::test(groups::test_of(number), s),
        Group::Many => many(pool, notice, groups::many_of(number), entries, count),
        _ => s,
    }
}

// An op has 256 added for the second edition.
fn edition_of(number: u16) -> Edition {
    if number < 256 {
        Edition::First
    } else {
        Edition::Second
    }
}

// Answers whether there was a case.
fn next_case(
    from: &mut impl Read,
    to: &mut impl Write,
    pool: &[u8],
    notice: &[u8],
) -> io::Result<bool> {
    let mut entries = [0u8; 120];
    let n = cases::next_part(from, &mut entries)?.unwrap_or(0);
    if n < 12 {
        return Ok(false);
    }
    let count = n / 12 - 1;
    let number = word::read_u16(&entries, count * 12);
    let edition = edition_of(number);
    let slot = operate(pool, notice, edition, number % 256, &entries, count);
    put_slot(to, pool, notice, slot)?;
    Ok(true)
}

fn main(rt: HostRuntime) -> io::Result<()> {
    let mut from = BufReader::new(rt.alloc(), rt.reader())?;
    let mut to = BufWriter::new(rt.alloc(), io::writer(&rt))?;
    let mut pool = [0u8; 1024];
    let mut notice = [0u8; 2048];
    let m = cases::next_part(&mut from, &mut pool)?.unwrap_or(0);
    let n = cases::next_part(&mut from, &mut notice)?.unwrap_or(0);
    let pool = &pool[..m];
    let notice = &notice[..n];
    cases::all(
        &mut from,
        &mut to,
        |from, to| next_case(from, to, pool, notice),
    )?;
    to.flush()
}
