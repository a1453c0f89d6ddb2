// Runs a store on the calls of standard input. A call is two parts: what is done (1 byte), and an operand.
// m, a length (8 bytes): so much of the buffer is lent from there on, and made an empty store; a, a table: it is added; r, a number (8 bytes): it is removed;
// f, a number (8 bytes): it is fetched; n, the length of the lent verdict buffer (2 bytes) and a notice: the tables held are run on it;
// b, an offset (8 bytes) and a byte: the byte is written there; d: every byte is printed.
// Prints the refusal, and what else is answered; of verdicts the whole buffer, the part that is not lent too: it was filled with 0xa5.
#![tactic(auto)]

use cases::Lent;
use refusal::Refusal;
use std::io;
use std::io::{Read, Write};

fn fetch(to: &mut impl Write, buffer: &[u8], number: usize) -> io::Result<()> {
    match store::find(buffer, number) {
        Ok(part) => write!(to, "0 {} {} ", part.start, part.end)?,
        Err(r) => write!(to, "{} 0 0 ", r.number())?,
    }
    cases::print_hex(to, store::fetch(buffer, number))?;
    Ok(())
}

fn match_all(to: &mut impl Write, buffer: &[u8], operand: &[u8]) -> io::Result<()> {
    let mut verdicts = [cases::FILL; 72];
    if operand.len() < 2 {
        return Ok(());
    }
    let room = word::read_u16(operand, 0) as usize;
    if verdicts.len() < room {
        return Ok(());
    }
    match many::match_store(buffer, &operand[2..], &mut verdicts[..room]) {
        Ok(()) => write!(to, "0 0 ")?,
        Err(r) => write!(to, "{} {} ", r.number(), r.place())?,
    }
    cases::print_hex(to, &verdicts)?;
    Ok(())
}

fn put_done(to: &mut impl Write, done: Result<(), Refusal>) -> io::Result<()> {
    match done {
        Ok(()) => write!(to, "0 "),
        Err(r) => write!(to, "{} ", r.number()),
    }
}

fn put_byte(buffer: &mut [u8], at: usize, operand: &[u8]) {
    if at < buffer.len() && 9 <= operand.len() {
        buffer[at] = operand[8];
    }
}

fn call(
    to: &mut impl Write,
    buffer: &mut [u8],
    what: u8,
    n: usize,
    operand: &[u8],
) -> io::Result<()> {
    match what {
        b'm' => put_done(to, store::make(buffer)),
        b'a' => match store::add(buffer, operand) {
            Ok(number) => write!(to, "0 {number} "),
            Err(r) => write!(to, "{} 64 ", r.number()),
        },
        b'r' => put_done(to, store::remove(buffer, n)),
        b'f' => fetch(to, buffer, n),
        b'n' => match_all(to, buffer, operand),
        b'b' => {
            put_byte(buffer, n, operand);
            Ok(())
        }
        _ => {
            cases::print_hex(to, buffer)?;
            Ok(())
        }
    }
}

fn number_of(operand: &[u8]) -> usize {
    if operand.len() < 8 {
        return 0;
    }
    word::read_u64(operand, 0) as usize
}

// One call on the part that is lent. Answers whether there was one, with no more lent than there is.
fn next_call(
    from: &mut impl Read,
    to: &mut impl Write,
    lent: &mut Lent<65600>,
) -> io::Result<bool> {
    let mut what = [0u8; 1];
    let mut buffer = [0u8; 20480];
    let Some(_) = cases::next_part(from, &mut what)? else {
        return Ok(false);
    };
    let Some(end) = cases::next_part(from, &mut buffer)? else {
        return Ok(false);
    };
    let operand = &buffer[..end];
    let n = number_of(operand);
    if what[0] == b'm' && !lent.resize(n) {
        return Ok(false);
    }
    call(to, lent.bytes(), what[0], n, operand)?;
    writeln!(to)?;
    Ok(true)
}

fn main(rt: HostRuntime) -> io::Result<()> {
    let mut lent = Lent::new(cases::FILL);
    cases::run(rt, |from, to| next_call(from, to, &mut lent))
}
