// The bytes of a quoted item that have no escape, eight at once and one by one.
ghost use Rattle.std.specs.Prelude.{◌≡◌, true, ◌+◌, ◌≤◌, length};
ghost use Rattle.word.specs.Word.{word_bytes};
ghost use Rattle.ubf.specs.Escape.{needs_escape, lacking, Plain, PlainTo};

pub(crate) fn needs_escape(b: u8, q: u8) -> bool
    ensures { result ≡ needs_escape q b }
{
    (b == q) | (b == b'\\')
}

// Whether none of a word's bytes is q. A byte of `other` is 0 where q stands; any other has its high bit, or has it with 127 more, and carries nothing.
fn lacks(x: u64, q: u8) -> bool
    ensures { result ≡ lacking q (word_bytes 8 x) }
{
    let other = x ^ (q as u64 * 0x0101_0101_0101_0101);
    let high = ((other & 0x7f7f_7f7f_7f7f_7f7f) + 0x7f7f_7f7f_7f7f_7f7f) | other;
    high & 0x8080_8080_8080_8080 == 0x8080_8080_8080_8080
}

// Whether eight bytes are there from `at` on that have no escape.
fn plain_at(s: &[u8], at: usize, q: u8) -> bool
    requires { at ≤ length s.now }
    ensures { result ≡ true → (at + 8 ≤ length s.now) × Plain s.now q at (at + 8) }
{
    if s.len() - at < 8 {
        return false;
    }
    let x = word::read_u64(s, at);
    lacks(x, q) & lacks(x, b'\\')
}

// The place after such words.
fn plain_words(s: &[u8], at: usize, q: u8) -> usize
    requires { at ≤ length s.now }
    ensures { (at ≤ result) × (result ≤ length s.now) × Plain s.now q at result }
{
    let mut i = at;
    while plain_at(s, i, q) {
        i += 8;
    }
    i
}

// The first place from `at` on of a byte that has an escape, or the length.
fn plain_bytes(s: &[u8], at: usize, q: u8) -> usize
    requires { at ≤ length s.now }
    ensures { PlainTo s.now q at result }
{
    for i in at..s.len() {
        if needs_escape(s[i], q) {
            return i;
        }
    }
    s.len()
}

// The same of what may be long. The first byte is told by itself, since one escape may follow another.
pub(crate) fn plain_to(s: &[u8], at: usize, q: u8) -> usize
    requires { at ≤ length s.now }
    ensures { PlainTo s.now q at result }
{
    if at < s.len() {
        if needs_escape(s[at], q) {
            return at;
        }
    }
    plain_bytes(s, plain_words(s, at, q), q)
}
