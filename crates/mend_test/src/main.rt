// Runs mending on the cases of standard input. A case is two parts: the lengths of the lent list and of the lent notice (4 bytes each), and the bytes.
// Prints number, place, the notice's length and the fields listed, the list, the notice, and of either buffer whether all bytes past it, the part that is not lent too, are as they were (1, 0).
#![tactic(auto)]

use std::io;
use std::io::{Read, Write};

fn put_start(to: &mut impl Write, s: &[u8], end: usize) -> io::Result<()> {
    if end <= s.len() {
        cases::print_hex(to, &s[..end])?;
    }
    write!(to, " ")
}

// Whether the bytes from `at` on are as they were.
fn kept_from(s: &[u8], at: usize) -> bool {
    at <= s.len() && cases::kept(&s[at..])
}

// One case. Answers whether there was one.
fn next_case(from: &mut impl Read, to: &mut impl Write) -> io::Result<bool> {
    let mut head = [0u8; 8];
    let mut bytes = [0u8; 66000];
    let mut list = [cases::FILL; 65600];
    let mut notice = [cases::FILL; 65600];
    let Some(_) = cases::next_part(from, &mut head)? else {
        return Ok(false);
    };
    let Some(n) = cases::next_part(from, &mut bytes)? else {
        return Ok(false);
    };
    let list_room = word::read_u32(&head, 0) as usize;
    let notice_room = word::read_u32(&head, 4) as usize;
    if list.len() < list_room || notice.len() < notice_room {
        return Ok(false);
    }
    let mended = mend::mend(
        &bytes[..n],
        &mut list[..list_room],
        &mut notice[..notice_room],
    );
    let (length, fields) = match mended {
        Ok(m) => {
            write!(to, "0 0 ")?;
            (m.length, m.fields)
        }
        Err(r) => {
            write!(to, "{} {} ", r.number(), r.place())?;
            (0, 0)
        }
    };
    let listed = fields.saturating_mul(3);
    write!(to, "{length} {fields} ")?;
    put_start(to, &list, listed)?;
    put_start(to, &notice, length)?;
    writeln!(
        to,
        "{} {} ",
        kept_from(&list, listed) as u8,
        kept_from(&notice, length) as u8
    )?;
    Ok(true)
}

fn main(rt: HostRuntime) -> io::Result<()> {
    cases::run(rt, |from, to| next_case(from, to))
}
