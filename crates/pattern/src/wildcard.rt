// The patterns of `wildcard`: whether a text is one, and whether a value fits it.
ghost use Rattle.std.specs.Prelude.{◌≡◌, ◌+◌, drop};
ghost use Rattle.octets.specs.Octets.{folded};
ghost use Rattle.pattern.specs.Steps.{end_of, taken_of, plain_taken, only_runs};
ghost use Rattle.pattern.specs.Wildcard.{set_part, part_of, well_formed, wildcard_of};

use crate::sets::{begins, set_test};
use octets::fold;

// The index behind the set that follows a `[`, if one does.
fn set_end(p: &[u8], i: usize) -> Option<usize>
    ensures { result ≡ end_of (set_part (drop i p.now)) i }
{
    let out = begins(p, i, b'!');
    let set = set_test(p, false, i + usize::from(out), 0)?;
    Some(set.end)
}

// The index behind the item that begins at an index, if one does.
fn item_end(p: &[u8], i: usize) -> Option<usize>
    ensures { result ≡ end_of (part_of (drop i p.now)) (i + 1) }
{
    if p.len() <= i {
        return None;
    }
    match p[i] {
        b'\\' if i + 1 < p.len() => Some(i + 2),
        b'\\' => None,
        b'[' => set_end(p, i + 1),
        _ => Some(i + 1),
    }
}

// Whether a text is a pattern.
pub fn well_formed(p: &[u8]) -> bool
    ensures { result ≡ well_formed p.now }
{
    let mut i = 0;
    while i < p.len() {
        let Some(next) = item_end(p, i) else {
            return false;
        };
        i = next;
    }
    true
}

// "one byte of a set with ranges and a leading `!` for the complement": the index behind the set that follows a `[` if it takes the byte.
// A function of its own, so that the loop over the value keeps its registers.
#[inline(never)]
fn set_takes(p: &[u8], mark: bool, i: usize, c: u8) -> Option<usize>
    ensures { result ≡ taken_of (set_part (drop i (folded «mark» p.now))) i c }
{
    let out = begins(p, i, b'!');
    let set = set_test(p, mark, i + usize::from(out), c)?;
    if set.hit != out { Some(set.end) } else { None }
}

// The index behind a plain byte if it is the byte given.
fn plain_takes(p: &[u8], mark: bool, i: usize, c: u8) -> Option<usize>
    ensures { result ≡ plain_taken i (drop i (folded «mark» p.now)) c }
{
    if i < p.len() && fold(mark, p[i]) == c {
        return Some(i + 1);
    }
    None
}

// The index behind the item at an index if it takes the byte.
fn item_takes(p: &[u8], mark: bool, i: usize, c: u8) -> Option<usize>
    ensures { result ≡ taken_of (part_of (drop i (folded «mark» p.now))) (i + 1) c }
{
    if p.len() <= i {
        return None;
    }
    match p[i] {
        b'*' => None,
        b'?' => Some(i + 1),
        b'\\' => plain_takes(p, mark, i + 1, c),
        b'[' => set_takes(p, mark, i + 1, c),
        _ => plain_takes(p, mark, i, c),
    }
}

// Whether only `*` are left of the pattern: these fit the empty rest of a value.
fn only_runs(p: &[u8], at: usize) -> bool
    ensures { result ≡ only_runs (drop at p.now) }
{
    p.iter().skip(at).all(|b| *b == b'*')
}

// The last `*` that the match has met: the index behind it, and where its present run ends in the value.
#[derive(Clone, Copy)]
struct Star {
    behind: usize,
    base: usize,
}

// "the whole value must fit a pattern", each read under its folding mark. Items take bytes from the left; where one does not, the last `*` takes one byte more.
// An ill-formed pattern fits nothing: an answer of true has read every item.
// A function of its own: laid into the run it would have its last `*` in memory, for want of registers.
#[inline(never)]
pub fn fits(s: &[u8], s_mark: bool, p: &[u8], p_mark: bool) -> bool
    ensures { result ≡ wildcard_of (folded s_mark s.now) (folded p_mark p.now) }
{
    let mut i = 0;
    let mut v = 0;
    let mut star: Option<Star> = None;
    while v < s.len() {
        if let Some(next) = item_takes(p, p_mark, i, fold(s_mark, s[v])) {
            i = next;
            v += 1;
            continue;
        }
        if begins(p, i, b'*') {
            i += 1;
            star = Some(Star { behind: i, base: v });
            continue;
        }
        let Some(last) = star else {
            return false;
        };
        i = last.behind;
        v = last.base + 1;
        star = Some(Star { behind: i, base: v });
    }
    only_runs(p, i)
}
