// Scanning one item of a text: where it ends, and what it is.
ghost use Rattle.std.specs.Prelude.{◌≡◌, true, ◌||◌, ◌+◌, ◌*◌, ◌-◌, ◌≤◌, ◌<◌, length, get_or};
ghost use Rattle.ubf.specs.Byte.{is, is_space, is_digit};
ghost use Rattle.ubf.specs.Escape.{escape_right, byte_place};
ghost use Rattle.ubf.specs.Scan.{QuotedIs, BlanksTo, Grows, DigitsTo, IntegerIs, BinaryIs};

use crate::words::{needs_escape, plain_to};

pub(crate) fn is_space(b: u8) -> bool
    ensures { result ≡ is_space b }
{
    (((b == b' ') | (b == b'\n')) | (b == b'\r')) | (b == b'\t')
}

pub(crate) fn is_digit(b: u8) -> bool
    ensures { result ≡ is_digit b }
{
    (b'0' <= b) & (b <= b'9')
}

// Where a quoted item closes, or the text's length if it does not; and how many of its bytes have an escape.
#[derive(Drop)]
pub struct Quoted {
    pub end: usize,
    pub escapes: usize,
}

// Whether the backslash at `at` stands before itself or the delimiter.
fn escape_right(text: &[u8], at: usize, q: u8) -> bool
    requires { at < length text.now }
    ensures { result ≡ escape_right text.now at q }
{
    if text.len() - at < 2 {
        return false;
    }
    needs_escape(text[at + 1], q)
}

// A quoted item whose bytes start at `at`.
pub(crate) fn quoted_at(text: &[u8], at: usize, q: u8) -> Quoted
    requires { (at ≤ length text.now) × (q ≡ 92 → ⊥) }
    ensures { QuotedIs text.now at q result.end result.escapes }
{
    let mut i = at;
    let mut escapes = 0;
    while i < text.len() {
        let b = text[i];
        if b == q {
            return Quoted { end: i, escapes };
        }
        if b != b'\\' {
            i += 1;
            continue;
        }
        if !escape_right(text, i, q) {
            break;
        }
        i += 2;
        escapes += 1;
    }
    Quoted {
        end: text.len(),
        escapes: 0,
    }
}

// A string, by runs in which no byte has an escape: it may be long.
pub(crate) fn string_at(text: &[u8], at: usize) -> Quoted
    requires { at ≤ length text.now }
    ensures { QuotedIs text.now at 34 result.end result.escapes }
{
    let mut i = at;
    let mut escapes = 0;
    while i < text.len() {
        let end = plain_to(text, i, b'"');
        if end == text.len() {
            break;
        }
        if text[end] == b'"' {
            return Quoted { end, escapes };
        }
        if !escape_right(text, end, b'"') {
            break;
        }
        i = end + 2;
        escapes += 1;
    }
    Quoted {
        end: text.len(),
        escapes: 0,
    }
}

// The first place from `at` on where neither whitespace nor a comment stands.
pub(crate) fn blanks(text: &[u8], at: usize) -> usize
    requires { at ≤ length text.now }
    ensures { BlanksTo text.now at result }
{
    let mut i = at;
    while i < text.len() {
        let b = text[i];
        if is_space(b) {
            i += 1;
            continue;
        }
        if b != b'%' {
            return i;
        }
        let end = quoted_at(text, i + 1, b'%').end;
        if end == text.len() {
            return end;
        }
        i = end + 1;
    }
    i
}

// An integer by sign and size, 2 ^ 64 - 1 for any that is greater, and the place after its digits.
#[derive(Drop)]
pub struct Integer {
    pub negative: bool,
    pub size: u64,
    pub end: usize,
}

// The size with one digit more.
fn digit_more(size: u64, b: u8) -> u64
    requires { (48 ≤ b) × (b ≤ 57) }
    ensures { Grows size b result }
{
    let d = (b - b'0') as u64;
    if 1844674407370955161 < size {
        return 0xffff_ffff_ffff_ffff;
    }
    if (size == 1844674407370955161) & (5 < d) {
        return 0xffff_ffff_ffff_ffff;
    }
    size * 10 + d
}

// The digits from `first` on.
fn digits(text: &[u8], first: usize, negative: bool) -> Integer
    requires { first ≤ length text.now }
    ensures { DigitsTo text.now first result.size result.end × (result.negative ≡ negative) }
{
    let mut size: u64 = 0;
    let mut i = first;
    while i < text.len() {
        let b = text[i];
        if !is_digit(b) {
            break;
        }
        size = digit_more(size, b);
        i += 1;
    }
    Integer {
        negative,
        size,
        end: i,
    }
}

// The integer at `at`, where a digit or a minus sign stands; its end is `at` if no digit follows the sign.
pub(crate) fn integer_at(text: &[u8], at: usize) -> Integer
    requires { (at < length text.now) × ((is_digit (get_or text.now at 0) || is "-" (get_or text.now at 0)) ≡ true) }
    ensures { IntegerIs text.now at result.negative result.size result.end }
{
    if text[at] != b'-' {
        return digits(text, at, false);
    }
    let n = digits(text, at + 1, true);
    if n.end == at + 1 {
        return Integer {
            negative: true,
            size: 0,
            end: at,
        };
    }
    n
}

// Where the binary of n bytes whose first `~` is at `at` closes, or the text's length if it does not.
pub(crate) fn binary_end(text: &[u8], at: usize, n: u64) -> usize
    requires { at < length text.now }
    ensures { BinaryIs text.now at n result }
{
    let left = text.len() - at - 1;
    if left as u64 <= n {
        return text.len();
    }
    let end = at + 1 + n as usize;
    if text[end] == b'~' { end } else { text.len() }
}

// Where the byte that starts at `at` itself stands: after its backslash, if it has one.
pub(crate) fn byte_place(text: &[u8], at: usize, escaped: bool) -> usize
    requires { at < length text.now }
    ensures { result ≡ byte_place text.now at escaped }
{
    if escaped & (text[at] == b'\\') {
        return at + 1;
    }
    at
}
