// Stores of a text's parts. Each function stores its bytes from `at` on and answers the place after them. It asks for room, which its caller has tested once for the whole text.
ghost use Rattle.std.specs.Prelude.{◌≡◌, ◌+◌, ◌*◌, ◌≤◌, ◌<◌, length};
ghost use Rattle.decimal.specs.Decimal.{Put};
ghost use Rattle.ubf.specs.Escape.{escape_of, escapes};
ghost use Rattle.ubf.specs.Text.{string_text, signed_of, signed_text, tag_text};

use crate::words::{needs_escape, plain_to};
use decimal::{places, put_byte, put_bytes, put_decimal};

// A number by sign and size.
#[derive(Drop)]
pub struct Signed {
    pub negative: bool,
    pub size: u64,
}

pub fn signed4(u: u32) -> Signed
    ensures { result ≡ signed_of 4 u }
{
    if u < 0x8000_0000 {
        return Signed {
            negative: false,
            size: u as u64,
        };
    }
    Signed {
        negative: true,
        size: 0x1_0000_0000 - u as u64,
    }
}

pub fn signed8(u: u64) -> Signed
    ensures { result ≡ signed_of 8 u }
{
    if u < 0x8000_0000_0000_0000 {
        return Signed {
            negative: false,
            size: u,
        };
    }
    Signed {
        negative: true,
        size: 0xffff_ffff_ffff_ffff - u + 1,
    }
}

pub fn signed_length(s: Signed) -> usize
    ensures { (result ≡ length (signed_text s)) × (result ≤ 21) }
{
    let n = places(s.size);
    if s.negative {
        return n + 1;
    }
    n
}

pub fn put_signed(out: &mut [u8], at: usize, s: Signed) -> usize
    requires { at + length (signed_text s) ≤ length out.old }
    ensures { Put out.old at (signed_text s) out.new result }
{
    if s.negative {
        let next = put_byte(out, at, b'-');
        return put_decimal(out, next, s.size);
    }
    put_decimal(out, at, s.size)
}

// Strings, with escapes only where needed.
fn width(b: u8) -> usize
    ensures { (result ≡ length (escape_of 34 b)) × (result ≤ 2) }
{
    if needs_escape(b, b'"') { 2 } else { 1 }
}

pub fn escaped_length(s: &[u8]) -> usize
    requires { length s.now ≤ 65536 }
    ensures { (result ≡ length (escapes 34 s.now)) × (result ≤ 2 * length s.now) }
{
    let mut n = 0;
    for b in s {
        n += width(*b);
    }
    n
}

fn put_escape(out: &mut [u8], at: usize, b: u8) -> usize
    requires { at + length (escape_of 34 b) ≤ length out.old }
    ensures { Put out.old at (escape_of 34 b) out.new result }
{
    if needs_escape(b, b'"') {
        out[at] = b'\\';
        out[at + 1] = b;
        return at + 2;
    }
    out[at] = b;
    at + 1
}

// A string byte by byte.
fn put_escaped(out: &mut [u8], at: usize, s: &[u8]) -> usize
    requires { at + length (escapes 34 s.now) ≤ length out.old }
    ensures { Put out.old at (escapes 34 s.now) out.new result }
{
    let mut p = at;
    for b in s {
        p = put_escape(out, p, *b);
    }
    p
}

// A string by the runs in which no byte has an escape.
fn put_runs(out: &mut [u8], at: usize, s: &[u8]) -> usize
    requires { at + length (escapes 34 s.now) ≤ length out.old }
    ensures { Put out.old at (escapes 34 s.now) out.new result }
{
    let mut p = at;
    let mut i = 0;
    while i < s.len() {
        let end = plain_to(s, i, b'"');
        p = put_bytes(out, p, &s[i..end]);
        if end == s.len() {
            return p;
        }
        p = put_escape(out, p, s[end]);
        i = end + 1;
    }
    p
}

// A short string byte by byte, a longer one by runs.
fn put_inside(out: &mut [u8], at: usize, s: &[u8]) -> usize
    requires { at + length (escapes 34 s.now) ≤ length out.old }
    ensures { Put out.old at (escapes 34 s.now) out.new result }
{
    if s.len() < 10 {
        return put_escaped(out, at, s);
    }
    put_runs(out, at, s)
}

pub fn put_string(out: &mut [u8], at: usize, s: &[u8]) -> usize
    requires { at + length (string_text s.now) ≤ length out.old }
    ensures { Put out.old at (string_text s.now) out.new result }
{
    let a = put_byte(out, at, b'"');
    let b = put_inside(out, a, s);
    put_byte(out, b, b'"')
}

pub fn put_tag(out: &mut [u8], at: usize) -> usize
    requires { at + 7 ≤ length out.old }
    ensures { Put out.old at tag_text out.new result }
{
    put_bytes(out, at, b"`int64`")
}
