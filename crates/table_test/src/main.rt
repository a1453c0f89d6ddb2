// Prints of each table on standard input its refusal number, 0 or 12, and of one that passes its entries and its pool. A case is a table and an empty part;
// or a table and an entry's number (8 bytes): of this entry it prints the number, op, a, b, start and end.
#![tactic(auto)]

ghost use Rattle.std.specs.Prelude.{◌≡◌, true};
ghost use Rattle.table.specs.Check.{check_of};

use std::io;
use std::io::{Read, Write};

fn put_table(to: &mut impl Write, table: &[u8]) -> io::Result<()>
    requires { check_of table.now ≡ true }
{
    for i in 0..table::count(table) {
        let e = table::entry_at(table, i);
        write!(to, "{} {} {} ", e.op, e.a, e.b)?;
    }
    cases::print_hex(to, table::pool(table))?;
    Ok(())
}

fn answer(to: &mut impl Write, table: &[u8]) -> io::Result<()> {
    if table::check(table) {
        write!(to, "0 ")?;
        put_table(to, table)?;
    } else {
        write!(to, "12")?;
    }
    writeln!(to)
}

fn put_parts(to: &mut impl Write, table: &[u8], k: usize) -> io::Result<()> {
    match table::parts_of(table, k) {
        Ok(p) => writeln!(to, "0 {} {} {} {} {} ", p.op, p.a, p.b, p.start, p.end),
        Err(r) => writeln!(to, "{} 0 0 0 0 0 ", r.number()),
    }
}

// One table. Answers whether there was one.
fn next_case(from: &mut impl Read, to: &mut impl Write) -> io::Result<bool> {
    let mut buffer = [0u8; 16384];
    let mut k = [0u8; 8];
    let n = cases::next_part(from, &mut buffer)?.unwrap_or(0);
    let table = &buffer[..n];
    match cases::next_part(from, &mut k)? {
        None => return Ok(false),
        Some(0) => answer(to, table)?,
        Some(_) => put_parts(to, table, word::read_u64(&k, 0) as usize)?,
    }
    Ok(true)
}

fn main(rt: HostRuntime) -> io::Result<()> {
    cases::run(rt, |from, to| next_case(from, to))
}
