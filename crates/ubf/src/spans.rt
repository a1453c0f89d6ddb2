// The fields of a text as parts of it, one after the other: "one tuple of name and value by turns, the name a string".
ghost use Rattle.std.specs.Prelude.{◌≡◌, true, false, ◌||◌, ◌+◌, ◌*◌, ◌≤◌, ◌<◌, length, get_or, drop};
ghost use Rattle.word.specs.Word.{word_bytes};
ghost use Rattle.notice.specs.Field.{name_right};
ghost use Rattle.ubf.specs.Byte.{is, is_digit};
ghost use Rattle.ubf.specs.Escape.{bytes_in};
ghost use Rattle.ubf.specs.Fields.{fits, number_bytes};
ghost use Rattle.ubf.specs.Scan.{is_blank};
ghost use Rattle.ubf.specs.Span.{name_in, PartIn, SpanIn, no_span, span_in, kept_in, size_more, tuple_at, ValueIs, AfterIs, FieldIs, Grown, CollectedIs, EndsIs, TupleIs};

use crate::scanning::{binary_end, blanks, byte_place, integer_at, is_digit, quoted_at, string_at};

// A value: its kind in a notice, 0 for none; a number's bits, or where its bytes start; how many bytes it has, and how many of them have an escape; and where the next item starts.
#[derive(Drop)]
pub struct Value {
    pub kind: usize,
    pub value: usize,
    pub len: usize,
    pub escapes: usize,
    pub next: usize,
}

// A field: its value, where its name's bytes start, how many the name has, and how many of them have an escape.
#[derive(Clone, Copy)]
pub struct Span {
    pub kind: usize,
    pub name: usize,
    pub namelen: usize,
    pub nameescapes: usize,
    pub value: usize,
    pub len: usize,
    pub escapes: usize,
    pub next: usize,
}

// What is known of a tuple: whether it is one, where its fields end, how many they are, whether all names and all sizes are right, and the notice's size.
#[derive(Clone, Copy)]
pub struct Tuple {
    pub right: bool,
    pub at: usize,
    pub count: usize,
    pub named: bool,
    pub sized: bool,
    pub size: usize,
}

fn no_value() -> Value
    ensures { result.kind ≡ 0 }
{
    Value {
        kind: 0,
        value: 0,
        len: 0,
        escapes: 0,
        next: 0,
    }
}

fn no_span() -> Span
    ensures { result ≡ no_span }
{
    Span {
        kind: 0,
        name: 0,
        namelen: 0,
        nameescapes: 0,
        value: 0,
        len: 0,
        escapes: 0,
        next: 0,
    }
}

fn fits4(negative: bool, n: u64) -> bool
    ensures { result ≡ fits 4 negative n }
{
    if negative {
        return n <= 0x8000_0000;
    }
    n < 0x8000_0000
}

fn fits8(negative: bool, n: u64) -> bool
    ensures { result ≡ fits 8 negative n }
{
    if negative {
        return n <= 0x8000_0000_0000_0000;
    }
    n < 0x8000_0000_0000_0000
}

// A number that fits, in two's complement.
fn bits4(negative: bool, n: u64) -> usize
    requires { fits 4 negative n ≡ true }
    ensures { (word_bytes 4 result ≡ number_bytes 4 negative n) × (result < 4294967296) }
{
    if negative & (n != 0) {
        return (0x1_0000_0000 - n) as usize;
    }
    n as usize
}

fn bits8(negative: bool, n: u64) -> usize
    requires { fits 8 negative n ≡ true }
    ensures { word_bytes 8 result ≡ number_bytes 8 negative n }
{
    if negative & (n != 0) {
        return (0xffff_ffff_ffff_ffff - n + 1) as usize;
    }
    n as usize
}

// The string whose first quote is at `at`.
fn string_value(text: &[u8], at: usize) -> Value
    requires { (at < length text.now) × (get_or text.now at 0 ≡ 34) }
    ensures { ValueIs text.now at result }
{
    let s = string_at(text, at + 1);
    if s.end == text.len() {
        return no_value();
    }
    Value {
        kind: 4,
        value: at + 1,
        len: s.end - (at + 1) - s.escapes,
        escapes: s.escapes,
        next: blanks(text, s.end + 1),
    }
}

// "counted binaries are opaque": the `~` after the count is at `at`.
fn binary_value(text: &[u8], at: usize, negative: bool, n: u64) -> Value
    requires { (at < length text.now) × (get_or text.now at 0 ≡ 126) }
    ensures { AfterIs text.now at negative n result }
{
    if negative & (n != 0) {
        return no_value();
    }
    let end = binary_end(text, at, n);
    if end == text.len() {
        return no_value();
    }
    Value {
        kind: 5,
        value: at + 1,
        len: n as usize,
        escapes: 0,
        next: blanks(text, end + 1),
    }
}

// "integers tagged `int64` are int64": the tag starts at `at`.
fn tagged_value(text: &[u8], at: usize, negative: bool, n: u64) -> Value
    requires { (at < length text.now) × (get_or text.now at 0 ≡ 96) }
    ensures { AfterIs text.now at negative n result }
{
    let end = quoted_at(text, at + 1, b'`').end;
    if end == text.len() {
        return no_value();
    }
    let tagged = octets::same(&text[at + 1..end], false, b"int64", false);
    if !(tagged & fits8(negative, n)) {
        return no_value();
    }
    Value {
        kind: 2,
        value: bits8(negative, n),
        len: 8,
        escapes: 0,
        next: blanks(text, end + 1),
    }
}

// "Untagged integers are int32": what stands at `at`, after the integer, tells.
fn after_integer(text: &[u8], at: usize, negative: bool, n: u64) -> Value
    requires { (at < length text.now) × (is_blank (get_or text.now at 0) ≡ false) }
    ensures { AfterIs text.now at negative n result }
{
    let b = text[at];
    if b == b'~' {
        return binary_value(text, at, negative, n);
    }
    if b == b'`' {
        return tagged_value(text, at, negative, n);
    }
    if !fits4(negative, n) {
        return no_value();
    }
    Value {
        kind: 1,
        value: bits4(negative, n),
        len: 4,
        escapes: 0,
        next: at,
    }
}

fn number_value(text: &[u8], at: usize) -> Value
    requires { (at < length text.now) × ((is_digit (get_or text.now at 0) || is "-" (get_or text.now at 0)) ≡ true) }
    ensures { ValueIs text.now at result }
{
    let n = integer_at(text, at);
    if n.end <= at {
        return no_value();
    }
    let next = blanks(text, n.end);
    if next == text.len() {
        return no_value();
    }
    after_integer(text, next, n.negative, n.size)
}

fn value_at(text: &[u8], at: usize) -> Value
    requires { (at < length text.now) × (is_blank (get_or text.now at 0) ≡ false) }
    ensures { ValueIs text.now at result }
{
    let b = text[at];
    if b == b'"' {
        return string_value(text, at);
    }
    if is_digit(b) | (b == b'-') {
        return number_value(text, at);
    }
    no_value()
}

// The field whose name's first quote is at `at`, kind 0 for none.
pub(crate) fn field_at(text: &[u8], at: usize) -> Span
    requires { (at < length text.now) × (get_or text.now at 0 ≡ 34) }
    ensures { FieldIs text.now at result }
{
    let name = quoted_at(text, at + 1, b'"');
    if name.end == text.len() {
        return no_span();
    }
    let from = blanks(text, name.end + 1);
    if from == text.len() {
        return no_span();
    }
    let v = value_at(text, from);
    Span {
        kind: v.kind,
        name: at + 1,
        namelen: name.end - (at + 1) - name.escapes,
        nameescapes: name.escapes,
        value: v.value,
        len: v.len,
        escapes: v.escapes,
        next: v.next,
    }
}

// Whether a name of n bytes with escapes is right.
fn escaped_right(text: &[u8], at: usize, n: usize) -> bool
    requires { PartIn text.now at n true }
    ensures { result ≡ name_right (bytes_in text.now at n true) }
{
    if (n < 1) | (64 < n) {
        return false;
    }
    let mut i = at;
    let mut left = n;
    while 0 < left {
        let k = byte_place(text, i, true);
        let b = text[k];
        if (b < 32) | (126 < b) {
            return false;
        }
        i = k + 1;
        left -= 1;
    }
    true
}

fn named(text: &[u8], s: Span) -> bool
    requires { SpanIn text.now s }
    ensures { result ≡ name_right (name_in text.now s) }
{
    let at = s.name;
    if s.nameescapes != 0 {
        return escaped_right(text, at, s.namelen);
    }
    let end = at + s.namelen;
    notice::name_right(&text[at..end])
}

// The size of a notice with one field more; over 16,384 it need not grow, and a field that is not right need not count.
fn size_more(size: usize, name: usize, value: usize) -> usize
    ensures { result ≡ size_more size name value }
{
    if ((16384 < size) | (64 < name)) | (1024 < value) {
        return size;
    }
    size + 5 + name + value
}

fn grown(text: &[u8], t: Tuple, s: Span) -> Tuple
    requires { SpanIn text.now s × (t.count < 18446744073709551615) }
    ensures { Grown text.now s t result }
{
    Tuple {
        right: t.right,
        at: s.next,
        count: t.count + 1,
        named: t.named & named(text, s),
        sized: t.sized & (s.len <= 1024),
        size: size_more(t.size, s.namelen, s.len),
    }
}

// Stores a span as row k of seven numbers, if there are as many rows.
fn keep(rows: &mut [usize], k: usize, s: Span)
    ensures { rows.new ≡ kept_in rows.old k s }
{
    if rows.len() / 7 <= k {
        return;
    }
    let at = 7 * k;
    rows[at] = s.kind;
    rows[at + 1] = s.name;
    rows[at + 2] = s.namelen;
    rows[at + 3] = s.nameescapes;
    rows[at + 4] = s.value;
    rows[at + 5] = s.len;
    rows[at + 6] = s.escapes;
}

// The span of row k.
pub(crate) fn span_at(rows: &[usize], k: usize) -> Span
    requires { 7 * k + 7 ≤ length rows.now }
    ensures { result ≡ span_in (drop (7 * k) rows.now) }
{
    let at = 7 * k;
    Span {
        kind: rows[at],
        name: rows[at + 1],
        namelen: rows[at + 2],
        nameescapes: rows[at + 3],
        value: rows[at + 4],
        len: rows[at + 5],
        escapes: rows[at + 6],
        next: 0,
    }
}

fn tuple_at(right: bool, at: usize) -> Tuple
    ensures { result ≡ tuple_at right at }
{
    Tuple {
        right,
        at,
        count: 0,
        named: true,
        sized: true,
        size: 8,
    }
}

// The fields from `at` on.
fn collect(text: &[u8], at: usize, rows: &mut [usize]) -> Tuple
    requires { at ≤ length text.now }
    ensures { CollectedIs text.now at rows.new result }
{
    let mut t = tuple_at(true, at);
    while t.at < text.len() {
        let i = t.at;
        if text[i] != b'"' {
            return t;
        }
        let s = field_at(text, i);
        if s.kind == 0 {
            return tuple_at(false, at);
        }
        keep(rows, t.count, s);
        t = grown(text, t, s);
    }
    t
}

// Whether the tuple ends at `at`, and the text with the `$` after it.
pub(crate) fn ends(text: &[u8], at: usize) -> bool
    requires { at ≤ length text.now }
    ensures { EndsIs text.now at result }
{
    if at == text.len() {
        return false;
    }
    if text[at] != b'}' {
        return false;
    }
    let end = blanks(text, at + 1);
    if end == text.len() {
        return false;
    }
    (text[end] == b'$') & (text.len() - end == 1)
}

// The one tuple that a text is, with its first fields as rows.
pub(crate) fn tuple_in(text: &[u8], rows: &mut [usize]) -> Tuple
    ensures { TupleIs text.now rows.new result }
{
    let start = blanks(text, 0);
    if start == text.len() {
        return tuple_at(false, start);
    }
    if text[start] != b'{' {
        return tuple_at(false, start);
    }
    let t = collect(text, blanks(text, start + 1), rows);
    if !t.right {
        return t;
    }
    if ends(text, t.at) {
        return t;
    }
    tuple_at(false, start)
}
