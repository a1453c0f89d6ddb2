// Two strings, eight bytes at a time, and shorter ones by bytes. Whether they are the same is told by the last eight bytes first: names with numbers differ there.
ghost use Rattle.std.specs.Prelude.{◌≡◌, map, ◌+◌, ◌≤◌, length, take, drop};
ghost use Rattle.word.specs.Word.{word_at, word_bytes};
ghost use Rattle.octets.specs.Octets.{lower, folded, same_of, before_of, lead};

use crate::fold;

// The word of the bytes of x with A..Z as a..z. A byte less its high bit has it with 63 more from A on, with 37 more past Z, and carries nothing: so `upper` has the high bits of
// the bytes A..Z, which a fourth of them turns to a..z.
fn lower_word(x: u64) -> u64
    ensures { result ≡ word_at 8 (map lower (word_bytes 8 x)) 0 }
{
    let low = x & 0x7f7f_7f7f_7f7f_7f7f;
    let from = low + 0x3f3f_3f3f_3f3f_3f3f;
    let past = low + 0x2525_2525_2525_2525;
    let upper = (from ^ past) & (x ^ 0x8080_8080_8080_8080) & 0x8080_8080_8080_8080;
    x + upper / 4
}

// The eight bytes from `at` on under a mark.
fn word_under(mark: bool, s: &[u8], at: usize) -> u64
    requires { at + 8 ≤ length s.now }
    ensures { result ≡ word_at 8 (folded «mark» s.now) at }
{
    let x = word::read_u64(s, at);
    if mark { lower_word(x) } else { x }
}

// Byte by byte, s folded if S is set.
fn same_bytes<const S: bool>(s: &[u8], t: &[u8], t_mark: bool) -> bool
    requires { length s.now ≡ length t.now }
    ensures { result ≡ same_of (folded S s.now) (folded t_mark t.now) }
{
    for i in 0..s.len() {
        if fold(S, s[i]) != fold(t_mark, t[i]) {
            return false;
        }
    }
    true
}

// Eight bytes at a time, the last eight first.
fn same_words<const S: bool>(s: &[u8], t: &[u8], t_mark: bool) -> bool
    requires { (length s.now ≡ length t.now) × (8 ≤ length s.now) }
    ensures { result ≡ same_of (folded S s.now) (folded t_mark t.now) }
{
    let last = s.len() - 8;
    if word_under(S, s, last) != word_under(t_mark, t, last) {
        return false;
    }
    let mut i = 0;
    while i < last {
        if word_under(S, s, i) != word_under(t_mark, t, i) {
            return false;
        }
        i += 8;
    }
    true
}

pub fn same<const S: bool>(s: &[u8], t: &[u8], t_mark: bool) -> bool
    requires { length s.now ≡ length t.now }
    ensures { result ≡ same_of (folded S s.now) (folded t_mark t.now) }
{
    if s.len() < 8 {
        return same_bytes::<S>(s, t, t_mark);
    }
    same_words::<S>(s, t, t_mark)
}

// Eight bytes as one number, the first greatest.
pub fn eight(s: &[u8], at: usize) -> u64
    requires { at + 8 ≤ length s.now }
    ensures { result ≡ lead 8 0 (drop at s.now) }
{
    let mut v: u64 = 0;
    for i in 0..8 {
        v = v * 256 + s[at + i] as u64;
    }
    v
}

// Whether s is before t, where the words at `at` are the first that differ.
fn by_word(s: &[u8], t: &[u8], at: usize) -> bool
    requires { (at + 8 ≤ length s.now) × (at + 8 ≤ length t.now) × (take at s.now ≡ take at t.now) × (word_at 8 s.now at ≡ word_at 8 t.now at → ⊥) }
    ensures { result ≡ before_of s.now t.now }
{
    eight(s, at) < eight(t, at)
}

// Whether s is before t, neither folded: by words, the last of which ends with the shorter string.
pub fn before_words(s: &[u8], t: &[u8]) -> bool
    requires { (8 ≤ length s.now) × (8 ≤ length t.now) }
    ensures { result ≡ before_of s.now t.now }
{
    let tail = s.len().min(t.len()) - 8;
    let mut i = 0;
    while i < tail {
        if word::read_u64(s, i) != word::read_u64(t, i) {
            return by_word(s, t, i);
        }
        i += 8;
    }
    if word::read_u64(s, tail) != word::read_u64(t, tail) {
        return by_word(s, t, tail);
    }
    s.len() < t.len()
}
