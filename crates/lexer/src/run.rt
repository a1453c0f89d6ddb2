// The bytes of a name, of a number and of a string, with the escapes in them. Document 01, "Tokens".
// In the loops `taken` says whether a backslash before takes the byte.
ghost use Rattle.std.specs.Prelude.{◌≡◌, false, [], ◌-◌, ◌≤◌, length, get_or, take, drop, set};
ghost use Rattle.std.proofs.lemmas.List.Edits.{sets};
ghost use Rattle.lexer.specs.Run.{takes as takes_of, ends as ends_of, run_of, unescaped, Free, Passes, has_escape, legal_byte, legal_name, GoesOn, body_of, is_empty};

use crate::byte::{is_common, is_delimiter, is_plain};

// The byte at a place, 0 past the end.
pub fn byte_at(s: &[u8], at: usize) -> u8
    ensures { result ≡ get_or s.now at 0 }
{
    s.get(at).copied().unwrap_or(0)
}

// What stands from a place on, nothing past the end.
pub fn rest<'a>(s: &'a [u8], at: usize) -> &'a [u8]
    ensures { result.now ≡ drop at s.now }
{
    &s[at.min(s.len())..]
}

// "A backslash takes the next byte"
fn takes(taken: bool, b: u8) -> bool
    ensures { result ≡ takes_of taken b }
{
    (!taken) & (b == b'\\')
}

// A string ends at its quote; a name or a number (quote 0) at whitespace, end, `(`, `)` or `,`.
fn ends(quote: u8, b: u8) -> bool
    ensures { result ≡ ends_of quote b }
{
    if quote == 0 {
        return is_delimiter(b);
    }
    b == quote
}

fn run_length(s: &[u8], quote: u8) -> usize
    ensures { result ≡ length (run_of quote s.now) }
{
    let mut taken = false;
    for (i, b) in s.iter().enumerate() {
        if !taken & ends(quote, *b) {
            return i;
        }
        taken = takes(taken, *b);
    }
    s.len()
}

// The bytes from a place up to the first one that ends them and is not taken.
pub fn run<'a>(s: &'a [u8], at: usize, quote: u8) -> &'a [u8]
    ensures { result.now ≡ run_of quote (drop at s.now) }
{
    let from = rest(s, at);
    let n = run_length(from, quote);
    &from[0..n]
}

// The bytes between the quotes of the string that stands first.
pub fn body<'a>(s: &'a [u8]) -> &'a [u8]
    ensures { result.now ≡ body_of s.now }
{
    run(s, 1, byte_at(s, 0))
}

pub fn has_escape(run: &[u8]) -> bool
    ensures { result ≡ has_escape run.now }
{
    run.contains(&b'\\')
}

// Where the bytes of a string end, from a place on, that are neither its quote nor a backslash.
pub fn unquoted_end(s: &[u8], at: usize, quote: u8) -> usize
    requires { quote ≡ 0 → ⊥ }
    ensures { (at ≤ result) × Passes quote (drop at s.now) (result - at) }
{
    for i in at..s.len() {
        let b = s[i];
        if (b == quote) | (b == b'\\') {
            return i;
        }
    }
    at.max(s.len())
}

// How many bytes stand first that end nothing and take nothing. Where no backslash comes after them, they are all.
fn free_length(s: &[u8], quote: u8) -> usize
    ensures { Free quote s.now result × ((get_or s.now result 0 ≡ 92 → ⊥) → unescaped false (run_of quote (drop result s.now)) ≡ []) }
{
    for (i, b) in s.iter().enumerate() {
        if ends(quote, *b) {
            return i;
        }
        if *b == b'\\' {
            return i;
        }
    }
    s.len()
}

// How many bytes stand from the start up to the first one that ends them and is not taken, without escapes. Those before the first backslash are read once.
pub fn plain_length(s: &[u8], quote: u8) -> usize
    ensures { result ≡ length (unescaped false (run_of quote s.now)) }
{
    let n = free_length(s, quote);
    if byte_at(s, n) == b'\\' {
        return n + copy_plain(&s[n..], quote, &mut []);
    }
    n
}

// Stores a byte where the part has the place.
fn put(part: &mut [u8], at: usize, b: u8)
    ensures { part.new ≡ set part.old at b }
{
    if at < part.len() {
        part[at] = b;
    }
}

// Copies the bytes of a name or a string, without escapes, to the start of the part, as far as it goes, and answers how many they are; the part's other bytes stay.
pub fn copy_plain(s: &[u8], quote: u8, part: &mut [u8]) -> usize
    ensures value { result ≡ length (unescaped false (run_of quote s.now)) }
    ensures part_after { part.new ≡ sets part.old 0 (unescaped false (run_of quote s.now)) }
{
    let mut n = 0;
    let mut taken = false;
    for b in s {
        if !taken & ends(quote, *b) {
            return n;
        }
        taken = takes(taken, *b);
        if taken {
            continue;
        }
        put(part, n, *b);
        n += 1;
    }
    n
}

// Copies the bytes that most names have, as far as they stand first and the part goes, to the start of the part, and answers how many they are.
pub fn copy_common(s: &[u8], part: &mut [u8]) -> usize
    ensures goes_on { GoesOn s.now result }
    ensures part_after { part.new ≡ sets part.old 0 (take result s.now) }
{
    let most = s.len().min(part.len());
    for i in 0..most {
        let b = s[i];
        if b < b'^' {
            if !is_common(b) {
                return i;
            }
            part[i] = b;
            continue;
        }
        if b'~' < b {
            return i;
        }
        part[i] = b;
    }
    most
}

// "A backslash takes the next byte, which must be 32..126. Unescaped bytes must be 33..126 and none of `[ ] ' "`."
fn legal_byte(taken: bool, b: u8) -> bool
    ensures { result ≡ legal_byte taken b }
{
    if taken {
        return (32 <= b) & (b <= 126);
    }
    is_plain(b)
}

// Where the bytes that most names have end, from a place on. A name goes on after them, so that only the others need every test. Small letters come first in it.
pub fn common_end(s: &[u8], at: usize) -> usize
    ensures { (at ≤ result) × GoesOn (drop at s.now) (result - at) }
{
    for i in at..s.len() {
        let b = s[i];
        if b < b'^' {
            if !is_common(b) {
                return i;
            }
            continue;
        }
        if b'~' < b {
            return i;
        }
    }
    at.max(s.len())
}

// Whether nothing of a name or a number stands from a place on.
pub fn ended(s: &[u8], at: usize) -> bool
    ensures { result ≡ is_empty (run_of 0 (drop at s.now)) }
{
    if at < s.len() {
        is_delimiter(s[at])
    } else {
        true
    }
}

// Of the name that stands first: its bytes, how many they are without escapes, whether they are legal. It is known to go on after the first bytes.
#[derive(Drop)]
pub struct Measured {
    pub bytes: usize,
    pub plain: usize,
    pub legal: bool,
}

pub fn measure_name(s: &[u8], first: usize) -> Measured
    requires { GoesOn s.now first }
    ensures { (result.bytes ≡ length (run_of 0 s.now)) × (result.plain ≡ length (unescaped false (run_of 0 s.now))) × (result.legal ≡ legal_name false (run_of 0 s.now)) }
{
    let mut legal = true;
    let mut n = first;
    let mut taken = false;
    for i in first..s.len() {
        let b = s[i];
        if !taken & ends(0, b) {
            return Measured {
                bytes: i,
                plain: n,
                legal: legal & !taken,
            };
        }
        legal = legal & legal_byte(taken, b);
        taken = takes(taken, b);
        if taken {
            continue;
        }
        n += 1;
    }
    Measured {
        bytes: s.len(),
        plain: n,
        legal: legal & !taken,
    }
}
