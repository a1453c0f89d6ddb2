// The records of standard input and the lines of standard output. Document 01, "Examples", the program `verdict`.
#![tactic(auto)]

ghost use Rattle.std.specs.Prelude.{◌≡◌, ◌+◌, ◌≤◌, ◌<◌, length};
ghost use Rattle.record.specs.Record.{record_of, waits_of};
ghost use Rattle.decimal.specs.Decimal.{Put};
ghost use Rattle.record.specs.Line.{spaced, verdict_of, text_line, notice_line, kind_line, error_line, line_room};

use decimal::{put_byte, put_bytes, put_decimal};
use truth::Truth;

// ---- records

// What the bytes that are left of the input start with.
#[derive(Clone, Copy)]
pub enum Record {
    // Nothing is left.
    End,
    // A whole record: its kind, and how many bytes it takes with its length word.
    Whole { kind: u16, size: usize },
    // The bytes end before the record does.
    Cut,
    // "its length is under 2 or over 16,380"
    Wrong,
}

// The record reader.
pub fn next_record(s: &[u8]) -> Record
    ensures { result ≡ record_of s.now }
{
    let n = s.len();
    if n == 0 {
        return Record::End;
    }
    if n < 4 {
        return Record::Cut;
    }
    let len = word::read_u32(s, 0) as usize;
    if len < 2 {
        return Record::Wrong;
    }
    if 16380 < len {
        return Record::Wrong;
    }
    let size = 4 + len;
    if size <= n {
        Record::Whole {
            kind: word::read_u16(s, 4),
            size,
        }
    } else {
        Record::Cut
    }
}

// Whether nothing can be said before more bytes come. `last`: there are no more.
pub fn waits(found: Record, last: bool) -> bool
    ensures { result ≡ waits_of found last }
{
    match found {
        Record::End => true,
        Record::Cut => !last,
        Record::Whole { .. } | Record::Wrong => false,
    }
}

// ---- lines: each function stores its bytes from `at` on and answers the place after them. It asks for room, which its caller has tested once for a whole line.

fn put_number(out: &mut [u8], at: usize, n: u64) -> usize
    requires { at + 21 ≤ length out.old }
    ensures { Put out.old at (spaced n) out.new result × (result ≤ at + 21) }
{
    let next = put_byte(out, at, b' ');
    put_decimal(out, next, n)
}

fn put_verdict(out: &mut [u8], at: usize, t: Truth) -> usize
    requires { at + 7 ≤ length out.old }
    ensures { Put out.old at (verdict_of t) out.new result × (result ≤ at + 7) }
{
    match t {
        Truth::True => put_bytes(out, at, b" true"),
        Truth::False => put_bytes(out, at, b" false"),
        Truth::Bottom => put_bytes(out, at, b" bottom"),
    }
}

// The bytes that every line has room in.
pub const LINE_ROOM: usize = 100;

// `S number place length`: what translation answered.
pub fn put_text_line(out: &mut [u8], at: usize, number: u64, place: u64, len: u64) -> usize
    requires { at + line_room ≤ length out.old }
    ensures { Put out.old at (text_line number place len) out.new result × (result ≤ at + line_room) }
{
    let a = put_byte(out, at, b'S');
    let b = put_number(out, a, number);
    let c = put_number(out, b, place);
    let d = put_number(out, c, len);
    put_byte(out, d, b'\n')
}

// `N number verdict steps place undecided`: what running answered.
pub fn put_notice_line(
    out: &mut [u8],
    at: usize,
    number: u64,
    verdict: Truth,
    steps: u64,
    place: u64,
    undecided: u64,
) -> usize
    requires { at + line_room ≤ length out.old }
    ensures { Put out.old at (notice_line number verdict steps place undecided) out.new result × (result ≤ at + line_room) }
{
    let a = put_byte(out, at, b'N');
    let b = put_number(out, a, number);
    let c = put_verdict(out, b, verdict);
    let d = put_number(out, c, steps);
    let e = put_number(out, d, place);
    let f = put_number(out, e, undecided);
    put_byte(out, f, b'\n')
}

// `X kind`
pub fn put_kind_line(out: &mut [u8], at: usize, kind: u64) -> usize
    requires { at + line_room ≤ length out.old }
    ensures { Put out.old at (kind_line kind) out.new result × (result ≤ at + line_room) }
{
    let a = put_byte(out, at, b'X');
    let b = put_number(out, a, kind);
    put_byte(out, b, b'\n')
}

// `E`
pub fn put_error_line(out: &mut [u8], at: usize) -> usize
    requires { at + line_room ≤ length out.old }
    ensures { Put out.old at error_line out.new result × (result ≤ at + line_room) }
{
    let a = put_byte(out, at, b'E');
    put_byte(out, a, b'\n')
}
