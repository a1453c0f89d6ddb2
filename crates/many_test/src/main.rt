// Runs tables laid end to end on a notice, on the cases of standard input. A case is three parts: the length of the lent verdict buffer (4 bytes), the tables, and the notice.
// Prints number, place and count, and the whole buffer, the part that is not lent too: it was filled with 0xa5.
#![tactic(auto)]

use std::io;
use std::io::{Read, Write};

// One case. Answers whether there was one.
fn next_case(from: &mut impl Read, to: &mut impl Write) -> io::Result<bool> {
    let mut head = [0u8; 4];
    let mut tables = [0u8; 16384];
    let mut notice = [0u8; 24576];
    let mut verdicts = [cases::FILL; 72];
    let Some(_) = cases::next_part(from, &mut head)? else {
        return Ok(false);
    };
    let Some(n) = cases::next_part(from, &mut tables)? else {
        return Ok(false);
    };
    let Some(k) = cases::next_part(from, &mut notice)? else {
        return Ok(false);
    };
    let room = word::read_u32(&head, 0) as usize;
    if verdicts.len() < room {
        return Ok(false);
    }
    match many::run_many(&tables[..n], &notice[..k], &mut verdicts[..room]) {
        Ok(count) => write!(to, "0 0 {count} ")?,
        Err(r) => write!(to, "{} {} 0 ", r.number(), r.place())?,
    }
    cases::print_hex(to, &verdicts)?;
    writeln!(to)?;
    Ok(true)
}

fn main(rt: HostRuntime) -> io::Result<()> {
    cases::run(rt, |from, to| next_case(from, to))
}
