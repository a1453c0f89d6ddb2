// What the operands of a text give to its table: bytes to the pool, bits to the entries of integers. Most of them have no escape and few digits, and need no walk over their bytes.
ghost use Rattle.std.specs.Prelude.{◌≡◌, true, ◌+◌, ◌≤◌, ◌<◌, length, take, drop};
ghost use Rattle.std.proofs.lemmas.List.Edits.{sets};
ghost use Rattle.std.specs.Int.{w64};
ghost use Rattle.std.proofs.Common.{of_z};
ghost use Rattle.lexer.specs.Byte.{is_delimiter};
ghost use Rattle.lexer.specs.Token.{name_at, string_at, integer_at};
ghost use Rattle.lexer.specs.Answer.{Stand};
ghost use Rattle.grammar.specs.Stream.{token_of};
ghost use Rattle.translator.specs.Compile.{leaf_bytes};

// ---- bytes

// Copies n bytes from a place of the text. Those of most names are two words, which may have bytes in common.
fn copy(out: &mut [u8], at: usize, text: &[u8], from: usize, n: usize)
    requires { (from + n ≤ length text.now) × (at + n ≤ length out.old) }
    ensures { out.new ≡ sets out.old at (take n (drop from text.now)) }
{
    let end = from + n;
    if (n < 4) | (16 < n) {
        common::copy_to(out, at, &text[from..end]);
        return;
    }
    let last = at + n;
    if n < 8 {
        let low = word::read_u32(text, from);
        let high = word::read_u32(text, end - 4);
        word::write_u32(out, at, low);
        word::write_u32(out, last - 4, high);
        return;
    }
    let low = word::read_u64(text, from);
    let high = word::read_u64(text, end - 8);
    word::write_u64(out, at, low);
    word::write_u64(out, last - 8, high);
}

// Whether a byte ends a name; not every one that does.
fn ends_name(b: u8) -> bool
    ensures { result ≡ true → is_delimiter b ≡ true }
{
    matches!(b, b' ' | b')' | b',' | b'\n')
}

// Whether the n bytes of a name stand so in the text: it ends after n bytes, and the last is no backslash.
fn is_plain_name(text: &[u8], place: usize, n: usize) -> bool
    requires { (place < 65536) × (n < 65536) }
    ensures { result ≡ true → n ≡ length (name_at text.now place) → Stand text.now place n (name_at text.now place) }
{
    let end = place + n;
    if (n == 0) | (text.len() <= end) {
        return false;
    }
    (text[end - 1] != b'\\') & ends_name(text[end])
}

// The same of a string, between its quotes.
fn is_plain_string(text: &[u8], place: usize, n: usize) -> bool
    requires { (place < 65536) × (n < 65536) }
    ensures { result ≡ true → n ≡ length (string_at text.now place) → Stand text.now (place + 1) n (string_at text.now place) }
{
    let last = place + n;
    if text.len() <= last + 1 {
        return false;
    }
    let quote = text[place];
    (quote != 0) & (text[last] != b'\\') & (text[last + 1] == quote)
}

fn put_name(text: &[u8], place: usize, n: usize, out: &mut [u8], at: usize)
    requires { (place < 65536) × (n ≤ 4096) × (n ≡ length (name_at text.now place)) × (at + n ≤ length out.old) }
    ensures { out.new ≡ sets out.old at (name_at text.now place) }
{
    if is_plain_name(text, place, n) {
        copy(out, at, text, place, n);
        return;
    }
    lexer::copy_name(text, place, &mut out[at..]);
}

fn put_string(text: &[u8], place: usize, n: usize, out: &mut [u8], at: usize)
    requires { (place < 65536) × (n ≤ 4096) × (n ≡ length (string_at text.now place)) × (at + n ≤ length out.old) }
    ensures { out.new ≡ sets out.old at (string_at text.now place) }
{
    if is_plain_string(text, place, n) {
        copy(out, at, text, place + 1, n);
        return;
    }
    lexer::copy_string(text, place, &mut out[at..]);
}

// Copies what the operand of an op brings to the pool, n bytes, to the buffer from `at` on.
pub fn put_bytes(text: &[u8], op: u8, place: usize, n: usize, out: &mut [u8], at: usize)
    requires { (place < 65536) × (n ≤ 4096) × (n ≡ length (leaf_bytes (token_of text.now op place))) × (at + n ≤ length out.old) }
    ensures { out.new ≡ sets out.old at (leaf_bytes (token_of text.now op place)) }
{
    if op == opcode::NAME {
        put_name(text, place, n, out, at);
        return;
    }
    if op == opcode::TEXT {
        put_string(text, place, n, out, at);
    }
}

// ---- integers

// The bits of an integer of decimal digits that do not start with `0`, as far as they are few; else 0.
fn few_digits(text: &[u8], place: usize) -> u64
    ensures { 0 < result → result ≡ of_z w64 (integer_at text.now place) }
{
    let mut v: u64 = 0;
    for i in place..text.len() {
        let b = text[i];
        if (b < b'0') | (b'9' < b) {
            return v;
        }
        if (100_000_000_000_000_000 <= v) | ((v == 0) & (b == b'0')) {
            return 0;
        }
        v = 10 * v + (b - b'0') as u64;
    }
    v
}

pub fn int_bits(text: &[u8], place: usize) -> u64
    ensures { result ≡ of_z w64 (integer_at text.now place) }
{
    let v = few_digits(text, place);
    if 0 < v {
        return v;
    }
    lexer::int_value(text, place).cast_unsigned()
}
