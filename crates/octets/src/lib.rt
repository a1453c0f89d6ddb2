// Byte strings under folding marks: same, order, begins, contains, ends. A mark says that its side is read with A..Z as a..z.
#![tactic(auto)]

ghost use Rattle.std.specs.Prelude.{◌≡◌};
ghost use Rattle.octets.specs.Octets.{fold as fold_of, folded, same_of, before_of, begins_of, contains_of, ends_of};

mod searching;
mod words;

pub use words::eight;

pub fn fold(mark: bool, b: u8) -> u8
    ensures { result ≡ fold_of mark b }
{
    match b {
        b'A'..=b'Z' if mark => b + 32,
        _ => b,
    }
}

// By words where no side is folded. A folded side goes to a function of its own with parts made anew, so that this one is small and keeps its slices out of memory:
// the compiler then lays it into its callers.
pub fn same(s: &[u8], s_mark: bool, t: &[u8], t_mark: bool) -> bool
    ensures { result ≡ same_of (folded s_mark s.now) (folded t_mark t.now) }
{
    if s.len() != t.len() {
        return false;
    }
    if s_mark {
        return words::same::<true>(&s[0..], &t[0..], t_mark);
    }
    if t_mark {
        return words::same::<true>(&t[0..], &s[0..], false);
    }
    words::same::<false>(s, t, false)
}

pub fn before(s: &[u8], s_mark: bool, t: &[u8], t_mark: bool) -> bool
    ensures { result ≡ before_of (folded s_mark s.now) (folded t_mark t.now) }
{
    for (a, b) in s.iter().zip(t) {
        let a = fold(s_mark, *a);
        let b = fold(t_mark, *b);
        if a != b {
            return a < b;
        }
    }
    s.len() < t.len()
}

// The same where no side is folded, by words where both have eight bytes: for names that begin alike. `before` stays small, so that the compiler lays it into its callers.
pub fn earlier(s: &[u8], t: &[u8]) -> bool
    ensures { result ≡ before_of s.now t.now }
{
    if (s.len() < 8) | (t.len() < 8) {
        return before(s, false, t, false);
    }
    words::before_words(s, t)
}

pub fn begins(s: &[u8], s_mark: bool, p: &[u8], p_mark: bool) -> bool
    ensures { result ≡ begins_of (folded s_mark s.now) (folded p_mark p.now) }
{
    let n = p.len();
    if s.len() < n {
        return false;
    }
    same(&s[0..n], s_mark, p, p_mark)
}

// In time proportional to value plus literal, if the literal has at most 4,096 bytes. A folded side goes to a function of its own with parts made anew, as in `same`.
pub fn contains(s: &[u8], s_mark: bool, p: &[u8], p_mark: bool) -> bool
    ensures { result ≡ contains_of (folded s_mark s.now) (folded p_mark p.now) }
{
    if p.len() == 0 {
        return true;
    }
    if s.len() < p.len() {
        return false;
    }
    if s_mark {
        return searching::search::<true>(&s[0..], true, &p[0..], p_mark);
    }
    if p_mark {
        return searching::search::<true>(&s[0..], false, &p[0..], true);
    }
    searching::search::<false>(s, false, p, false)
}

pub fn ends(s: &[u8], s_mark: bool, p: &[u8], p_mark: bool) -> bool
    ensures { result ≡ ends_of (folded s_mark s.now) (folded p_mark p.now) }
{
    let n = p.len();
    if s.len() < n {
        return false;
    }
    let at = s.len() - n;
    same(&s[at..], s_mark, p, p_mark)
}
