// The characters of a byte string: UTF-8, RFC 3629.
#![tactic(auto)]

ghost use Rattle.std.specs.Prelude.{◌≡◌, true, ◌+◌, ◌≤◌, ◌<◌, length, get_or, drop};
ghost use Rattle.utf8.specs.Utf8.{Counts};
ghost use Rattle.utf8.specs.Scan.{is_continuation, first_two, is_two, is_three, is_four, long_width, width_at, unless_zero, characters_in, Ascii, Advances};

// "UTF8-tail = %x80-BF"
fn is_continuation(b: u8) -> bool
    ensures { result ≡ is_continuation b }
{
    (0x80 <= b) & (b < 0xC0)
}

// The first two bytes, as a number.
fn first_two(b: u8, c: u8) -> u32
    ensures { result ≡ first_two b c }
{
    256 * (b as u32) + c as u32
}

// Below C2 are the continuation bytes and the overlong forms.
fn is_two(b: u8, c: u8) -> bool
    ensures { result ≡ is_two b c }
{
    (0xC2 <= b) & is_continuation(c)
}

// E0 80..9F are overlong forms, ED A0..BF the surrogates.
fn is_three(b: u8, c: u8, d: u8) -> bool
    ensures { result ≡ is_three b c d }
{
    let p = first_two(b, c);
    (is_continuation(c) & is_continuation(d)) & ((0xE0A0 <= p) & ((p < 0xEDA0) | (0xEE00 <= p)))
}

// F0 80..8F are overlong forms, from F4 90 on the numbers are above 10FFFF.
fn is_four(b: u8, c: u8, d: u8, e: u8) -> bool
    ensures { result ≡ is_four b c d e }
{
    let p = first_two(b, c);
    (is_continuation(c) & (is_continuation(d) & is_continuation(e)))
        & ((0xF090 <= p) & (p < 0xF490))
}

// How many bytes the character of three or four bytes has that b leads, unless it is ill-formed.
fn long_width(b: u8, c: u8, d: u8, e: u8) -> Option<usize>
    ensures { result ≡ unless_zero (long_width b c d e) }
{
    if b < 0xF0 {
        is_three(b, c, d).then_some(3)
    } else {
        is_four(b, c, d, e).then_some(4)
    }
}

// The byte k behind i, 0 past the end.
fn byte_at(s: &[u8], i: usize, k: usize) -> u8
    requires { i ≤ length s.now }
    ensures { result ≡ get_or s.now (i + k) 0 }
{
    s[i..].get(k).copied().unwrap_or(0)
}

// How many bytes the character at i has, which is not ASCII, unless it is ill-formed.
fn width(s: &[u8], i: usize) -> Option<usize>
    requires { (i < length s.now) × (128 ≤ get_or s.now i 0) }
    ensures { result ≡ unless_zero (width_at s.now i) }
{
    let b = s[i];
    if b < 0xE0 {
        return is_two(b, byte_at(s, i, 1)).then_some(2);
    }
    if s.len() - i < 4 {
        return long_width(b, byte_at(s, i, 1), byte_at(s, i, 2), byte_at(s, i, 3));
    }
    long_width(b, s[i + 1], s[i + 2], s[i + 3])
}

// Whether sixteen bytes behind the one at i are there, and all ASCII as that is.
fn ascii(s: &[u8], i: usize) -> bool
    requires { (i < length s.now) × (get_or s.now i 0 < 128) }
    ensures { result ≡ true → Ascii s.now i 17 }
{
    if s.len() - i < 17 {
        return false;
    }
    let mut all = true;
    for b in &s[i + 1..i + 17] {
        all &= *b < 128;
    }
    all
}

// The bytes of the next character, or of a run of ASCII, unless no character follows.
fn advance(s: &[u8], i: usize) -> Option<usize>
    requires { i < length s.now }
    ensures { Advances (drop i s.now) result }
{
    if s[i] < 128 {
        Some(if ascii(s, i) { 17 } else { 1 })
    } else {
        width(s, i)
    }
}

// How many characters so many bytes are: above four they are a run of ASCII.
fn characters(k: usize) -> usize
    ensures { result ≡ characters_in k }
{
    if 4 < k { k } else { 1 }
}

// How many characters the string has, unless it is ill-formed.
pub fn count(s: &[u8]) -> Option<usize>
    ensures { Counts s.now result }
{
    let mut i = 0;
    let mut n = 0;
    while i < s.len() {
        let k = advance(s, i)?;
        i += k;
        n += characters(k);
    }
    Some(n)
}
