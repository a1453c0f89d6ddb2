// Tokens. Document 01, "Tokens", and "Refusals by number", 10, 1 and 3.
#![tactic(auto)]

ghost use Rattle.std.specs.Prelude.{◌≡◌, true, ◌+◌, ◌-◌, ◌≤◌, ◌<◌, length, get_or, drop, Err, IfSome};
ghost use Rattle.std.proofs.lemmas.List.Edits.{sets};
ghost use Rattle.lexer.specs.Byte.{is_quote, starts_number};
ghost use Rattle.lexer.specs.Run.{GoesOn, all_common};
ghost use Rattle.lexer.specs.Digits.{sign_length};
ghost use Rattle.lexer.specs.Token.{scan_name, scan_integer, scan_number, scan_string, scan_of, tokens_of, kinds_of, starts_of, name_at, escaped_at, name_is, string_at, integer_at, real_at};
ghost use Rattle.lexer.specs.Answer.{Good, Refused, answered, number_of_fault, lexing_of, scanned, scanned_of, Reads, Stand};

mod byte;
mod digits;
mod integer;
mod real;
mod run;
mod symbol;

use byte::{is_decimal, is_quote, is_space, starts_name};
use digits::Numeral;
use integer::{integer_digits, integer_fits, is_integer, is_long};
use real::{Real, whole_digits};
use refusal::Refusal;
use run::{
    body, byte_at, common_end, copy_common, copy_plain, ended, has_escape, measure_name,
    plain_length, rest, run, unquoted_end,
};
use symbol::scan_symbol;

// The kinds of tokens by number: the op of "Table" where there is one, which an operator has too.
pub const INT32: u8 = opcode::INT32;

pub const INT64: u8 = opcode::INT64;

pub const REAL64: u8 = opcode::REAL64;

pub const TEXT: u8 = opcode::TEXT;

pub const NAME: u8 = opcode::NAME;

// `(`, `)` and `,` have numbers that no op has.
pub const OPEN: u8 = 9;

pub const CLOSE: u8 = 10;

pub const COMMA: u8 = 11;

// What stands past the last token.
pub const END: u8 = 99;

// Why no token stands first: what stands there has no legal form, or one that is outside its limits.
#[derive(Clone, Copy)]
enum Fault {
    Form,
    Limit,
}

impl Fault {
    // The refusal of a token that starts at a place.
    fn at(self, place: usize) -> Refusal
        ensures { answered (Err result) ≡ Refused (number_of_fault self) place }
    {
        match self {
            Fault::Form => Refusal::Token(place),
            Fault::Limit => Refusal::Limit(place),
        }
    }
}

// The kind number of the token that stands first and how many bytes it takes; or its fault.
type Scanned = Result<(u8, usize), Fault>;

// A name that goes on after its first bytes.
fn scan_odd_name(s: &[u8], first: usize) -> Scanned
    requires { GoesOn s.now first }
    ensures { scanned result ≡ scanned_of (scan_name s.now) }
{
    let m = measure_name(s, first);
    if !m.legal {
        return Err(Fault::Form);
    }
    let n = m.plain;
    if (1 <= n) & (n <= 64) {
        return Ok((NAME, m.bytes));
    }
    Err(Fault::Limit)
}

// A name of common bytes alone is legal and has no escape.
fn scan_name(text: &[u8], at: usize) -> Scanned
    ensures { scanned result ≡ scanned_of (scan_name (drop at text.now)) }
{
    let end = common_end(text, at);
    let n = end - at;
    if !ended(text, end) {
        return scan_odd_name(rest(text, at), n);
    }
    if (1 <= n) & (n <= 64) {
        return Ok((NAME, n));
    }
    Err(Fault::Limit)
}

// An integer, or what has no legal form. The caller has read the decimal digits.
fn scan_integer(bytes: &[u8], whole: Numeral) -> Scanned
    requires { Reads 10 0 (sign_length bytes.now) bytes.now whole }
    ensures { scanned result ≡ scanned_of (scan_integer bytes.now) }
{
    let d = integer_digits(bytes, whole);
    let long = is_long(bytes, d.end);
    if !is_integer(bytes, d.end, long) {
        return Err(Fault::Form);
    }
    if !integer_fits(bytes, d.value, long) {
        return Err(Fault::Limit);
    }
    if long {
        return Ok((INT64, bytes.len()));
    }
    Ok((INT32, bytes.len()))
}

// The digits of a number are read once, but those of an octal or hex integer, which are read as decimal ones too.
#[inline(never)]
fn scan_odd_number(text: &[u8], at: usize) -> Scanned
    ensures { scanned result ≡ scanned_of (scan_number (drop at text.now)) }
{
    let bytes = run(text, at, 0);
    let whole = whole_digits(bytes);
    let real = Real::new(bytes, whole);
    if !real.is_real() {
        return scan_integer(bytes, whole);
    }
    if real.fits() {
        return Ok((REAL64, bytes.len()));
    }
    Err(Fault::Limit)
}

// The length of a real of digits, a point and digits alone, if it is one that is within its limits. The caller has read the digits before the point.
fn plain_real(text: &[u8], at: usize, whole: Numeral) -> Option<usize>
    requires { (length text.now ≤ 4096) × (at < length text.now) × (get_or text.now whole.end 0 ≡ 46) × Reads 10 0 at text.now whole }
    ensures { IfSome result (λ n. Good 3 n ≡ scanned_of (scan_number (drop at text.now))) }
{
    let point = whole.end;
    let all = digits::digits(text, point + 1, 10, whole.value);
    let n = all.end - point;
    if ((at < point) & ((2 <= n) & (n <= 23)))
        & (all.value < 1_000_000_000_000_000)
        & ended(text, all.end)
    {
        return Some(all.end - at);
    }
    None
}

// Decimal digits alone whose value fits, without a leading zero, are an int32, and an int64 with its suffix; else, and where they are no plain real, all forms are tried, in a call of its own. Its answer is unwrapped, so that it does not stay in memory.
fn scan_number(text: &[u8], at: usize) -> Scanned
    requires { (length text.now ≤ 4096) × (at < length text.now) }
    ensures { scanned result ≡ scanned_of (scan_number (drop at text.now)) }
{
    let d = digits::digits(text, at, 10, 0);
    let a = text[at];
    let n = d.end - at;
    let leads = (b'1' <= a) & (a <= b'9');
    if (leads | (n == 1)) & (d.value < 0x8000_0000) & ended(text, d.end) {
        return Ok((INT32, n));
    }
    let b = byte_at(text, d.end);
    if (leads & ((b == b'l') | (b == b'L')))
        & (d.value < 0x8000_0000_0000_0000)
        & ended(text, d.end + 1)
    {
        return Ok((INT64, n + 1));
    }
    if b == b'.' {
        if let Some(length) = plain_real(text, at, d) {
            return Ok((REAL64, length));
        }
    }
    Ok(scan_odd_number(text, at)?)
}

// A string with escapes.
fn scan_odd_string(s: &[u8]) -> Scanned
    ensures { scanned result ≡ scanned_of (scan_string s.now) }
{
    let bytes = body(s);
    let n = bytes.len();
    let after = rest(s, n + 1);
    if after.len() == 0 {
        return Err(Fault::Form);
    }
    Ok((TEXT, n + 2))
}

// The first quote or backslash is its end, if it is a quote.
fn scan_string(text: &[u8], at: usize) -> Scanned
    requires { (at < length text.now) × (is_quote (get_or text.now at 0) ≡ true) }
    ensures { scanned result ≡ scanned_of (scan_string (drop at text.now)) }
{
    let quote = text[at];
    let end = unquoted_end(text, at + 1, quote);
    if text.len() <= end {
        return Err(Fault::Form);
    }
    if text[end] == quote {
        return Ok((TEXT, end - at + 1));
    }
    scan_odd_string(rest(text, at))
}

// "A `-` before a digit always starts a literal": the byte after a `-` alone is read.
fn starts_number(text: &[u8], at: usize, a: u8) -> bool
    requires { at ≤ 4096 }
    ensures { result ≡ starts_number a (get_or text.now (at + 1) 0) }
{
    if a == b'-' {
        return is_decimal(byte_at(text, at + 1));
    }
    is_decimal(a)
}

// By the first byte, and the second after a `-`.
fn scan(text: &[u8], at: usize) -> Scanned
    requires { (length text.now ≤ 4096) × (at < length text.now) }
    ensures { scanned result ≡ scanned_of (scan_of (drop at text.now)) }
{
    let a = text[at];
    if starts_name(a) {
        return scan_name(text, at);
    }
    if starts_number(text, at, a) {
        return scan_number(text, at);
    }
    if is_quote(a) {
        return scan_string(text, at);
    }
    scan_symbol(text, at)
}

// The tokens' kind numbers and starts go to the front of the lent slices, as far as the tokens are legal; their other elements stay.
// It asks for an element for each byte, if the text is not too long.
pub fn lex(text: &[u8], kinds: &mut [u8], starts: &mut [u16]) -> Result<usize, Refusal>
    requires { (length text.now ≤ 4096 → length text.now ≤ length kinds.old) × (length text.now ≤ 4096 → length text.now ≤ length starts.old) }
    ensures value { answered result ≡ lexing_of (tokens_of text.now) }
    ensures kinds_after { kinds.new ≡ sets kinds.old 0 (kinds_of (tokens_of text.now)) }
    ensures starts_after { starts.new ≡ sets starts.old 0 (starts_of (tokens_of text.now)) }
{
    if 4096 < text.len() {
        return Err(Refusal::Length);
    }
    let mut n = 0;
    let mut at = 0;
    while at < text.len() {
        if is_space(text[at]) {
            at += 1;
            continue;
        }
        match scan(text, at) {
            Ok((kind, length)) => {
                kinds[n] = kind;
                starts[n] = at as u16;
                n += 1;
                at += length;
            }
            Err(fault) => return Err(fault.at(at)),
        }
    }
    Ok(n)
}

// The value of a token by its start, for any text and any start.
pub fn name_length(text: &[u8], at: usize) -> usize
    ensures { result ≡ length (name_at text.now at) }
{
    let end = common_end(text, at);
    if ended(text, end) {
        return end - at;
    }
    plain_length(rest(text, at), 0)
}

pub fn name_escaped(text: &[u8], at: usize) -> bool
    ensures { result ≡ escaped_at text.now at }
{
    has_escape(run(text, at, 0))
}

// To the start of the part, as far as it goes; its other bytes stay. Answers how many bytes the name has.
pub fn copy_name(text: &[u8], at: usize, part: &mut [u8]) -> usize
    ensures value { result ≡ length (name_at text.now at) }
    ensures part_after { part.new ≡ sets part.old 0 (name_at text.now at) }
{
    let from = rest(text, at);
    let n = copy_common(from, part);
    if ended(from, n) {
        return n;
    }
    copy_plain(from, 0, part)
}

// Whether the name is the word, with no escape: its bytes stand there, and nothing of a name after them.
fn spells(text: &[u8], at: usize, word: &[u8]) -> bool
    requires { all_common word.now ≡ true }
    ensures { result ≡ name_is text.now at word.now }
{
    let from = rest(text, at);
    if ended(from, word.len()) {
        return octets::begins(from, false, word, false);
    }
    false
}

// The same. Most words differ from a name in the first byte, which is told before the rest, in a function that is small enough to be laid in line.
pub fn name_is(text: &[u8], at: usize, word: &[u8]) -> bool
    requires { all_common word.now ≡ true }
    ensures { result ≡ name_is text.now at word.now }
{
    if (0 < word.len()) & (byte_at(text, at) != byte_at(word, 0)) {
        return false;
    }
    spells(text, at, word)
}

// The length of the string at a place, where it has no escape.
fn plain_string(text: &[u8], at: usize) -> Option<usize>
    ensures { IfSome result (λ n. Stand text.now (at + 1) n (string_at text.now at)) }
{
    let quote = byte_at(text, at);
    if !is_quote(quote) {
        return None;
    }
    let start = at + 1;
    let end = unquoted_end(text, start, quote);
    if byte_at(text, end) == quote {
        return Some(end - start);
    }
    None
}

pub fn string_length(text: &[u8], at: usize) -> usize
    ensures { result ≡ length (string_at text.now at) }
{
    if let Some(n) = plain_string(text, at) {
        return n;
    }
    let from = rest(text, at);
    plain_length(rest(from, 1), byte_at(from, 0))
}

pub fn copy_string(text: &[u8], at: usize, part: &mut [u8]) -> usize
    ensures value { result ≡ length (string_at text.now at) }
    ensures part_after { part.new ≡ sets part.old 0 (string_at text.now at) }
{
    if let Some(n) = plain_string(text, at) {
        if n <= part.len() {
            let start = at + 1;
            common::copy_to(part, 0, &text[start..start + n]);
            return n;
        }
    }
    let from = rest(text, at);
    copy_plain(rest(from, 1), byte_at(from, 0), part)
}

pub fn int_value(text: &[u8], at: usize) -> i64
    ensures { result ≡ integer_at text.now at }
{
    let a = byte_at(text, at);
    if (b'1' <= a) & (a <= b'9') {
        return integer::leading_value(text, at);
    }
    integer::integer_value(run(text, at, 0))
}

pub fn real_value(text: &[u8], at: usize) -> f64
    ensures { result ≡ real_at text.now at }
{
    let bytes = run(text, at, 0);
    Real::new(bytes, whole_digits(bytes)).value()
}
