// Regular expressions: whether a text is a pattern, and whether a stretch of a value fits it. Document 02, request 13. A pattern is read a branch at a time into a table of tokens, which the crate automaton runs.
#![tactic(auto)]

ghost use Rattle.std.specs.Prelude.{◌≡◌, true, false, ◌||◌, ◌+◌, ◌≤◌, ◌<◌, length, take, drop};
ghost use Rattle.octets.specs.Octets.{folded};
ghost use Rattle.automaton.specs.Table.{repeats as repeatsOf, absent as absentOf, outside as outsideOf, sort as sortOf, tokens_of};
ghost use Rattle.automaton.specs.Decide.{decide};
ghost use Rattle.regexp.specs.Regex.{well_formed, regex_of, held_in, branches, branches_of, is_some, hat_of};
ghost use Rattle.regexp.specs.Words.{plain_byte, repeat_byte, easy_at};
ghost use Rattle.regexp.specs.Promise.{SetAt, WordAt, AllowedAt, EndAt, BranchAt, BehindAt, TurnAt, TableAt};

use octets::fold;
use pattern::sets::{begins, set_test};

// ---- words

#[derive(Clone, Copy)]
pub enum Read {
    // What takes one byte: the kind of its token, where its text stands, and the index behind it.
    Item(u8, usize, usize),
    // A repeat mark: what stands before may repeat, and may be absent.
    Repeat(bool, bool),
    Open,
    Bar,
    Close,
    // The end of the text, or an anchor.
    Stop,
    Bad,
}

// "bracket sets as in request 1 with `^` for `!`": the set behind a `[`. The kind of a set's token is 16, that of a complement 20.
fn set_word(text: &[u8], i: usize) -> Read
    ensures { SetAt text.now i result }
{
    let out = begins(text, i, b'^');
    let at = i + usize::from(out);
    match set_test(text, false, at, 0) {
        Some(set) => Read::Item(16 + 4 * u8::from(out), at, set.end),
        None => Read::Bad,
    }
}

// The word that begins at an index.
fn word_at(text: &[u8], i: usize) -> Read
    requires { i < length text.now }
    ensures { WordAt text.now i result }
{
    match text[i] {
        b'\\' if i + 1 < text.len() => Read::Item(0, i + 1, i + 2),
        b'\\' => Read::Bad,
        b'[' => set_word(text, i + 1),
        b'(' => Read::Open,
        b')' => Read::Close,
        b'|' => Read::Bar,
        b'*' => Read::Repeat(true, true),
        b'+' => Read::Repeat(true, false),
        b'?' => Read::Repeat(false, true),
        b'.' => Read::Item(8, i, i + 1),
        b'^' => Read::Stop,
        b'$' => Read::Stop,
        _ => Read::Item(0, i, i + 1),
    }
}

// The word that begins at an index, if it may stand where `room` more groups may open and `some` says whether the branch so far has a piece. Stop: the branch of the whole pattern ends here.
fn allowed(text: &[u8], i: usize, room: usize, some: bool) -> Read
    ensures { AllowedAt text.now i room some result }
{
    let top = room == 8;
    if text.len() <= i {
        return if top { Read::Stop } else { Read::Bad };
    }
    match word_at(text, i) {
        Read::Item(k, a, j) => Read::Item(k, a, j),
        Read::Repeat(r, o) if some => Read::Repeat(r, o),
        Read::Open if 0 < room => Read::Open,
        Read::Bar if top => Read::Stop,
        Read::Bar if some => Read::Bar,
        Read::Close if !top && some => Read::Close,
        Read::Stop if top => Read::Stop,
        _ => Read::Bad,
    }
}

// A byte that stands for itself. By `|` and not as a pattern of bytes, which becomes a slower chain of tests in the loop over the pattern.
fn is_plain(b: u8) -> bool
    ensures { result ≡ plain_byte b }
{
    !((b == b'\\')
        | (b == b'[')
        | (b == b'(')
        | (b == b')')
        | (b == b'|')
        | (b == b'.')
        | (b == b'^')
        | (b == b'$'))
}

fn is_repeat(b: u8) -> bool
    ensures { result ≡ repeat_byte b }
{
    (b == b'*') | (b == b'+') | (b == b'?')
}

// Whether a byte stands at an index that stands for itself, or a repeat mark behind a piece: all that most words are.
fn easy(text: &[u8], i: usize, some: bool) -> bool
    ensures { result ≡ easy_at some (drop i text.now) }
{
    i < text.len() && is_plain(text[i]) & (some | !is_repeat(text[i]))
}

// ---- a branch of the whole pattern, without its anchors

// A branch that was read: how many tokens its table has, whether it has a piece, and where it ends.
#[derive(Clone, Copy)]
pub struct Made {
    pub tokens: usize,
    pub some: bool,
    pub end: usize,
}

// The branch that begins at an index, without a table.
fn branch_end(text: &[u8], from: usize) -> Option<Made>
    requires { from ≤ length text.now }
    ensures { EndAt text.now from result }
{
    // How many more groups may open; whether the branch so far, or that of the innermost open group, has a piece.
    let mut room: usize = 8;
    let mut some = false;
    let mut i = from;
    loop {
        if easy(text, i, some) {
            some = true;
            i += 1;
            continue;
        }
        match allowed(text, i, room, some) {
            Read::Item(_, _, j) => {
                some = true;
                i = j;
            }
            Read::Repeat(..) => {
                i += 1;
            }
            Read::Open => {
                room -= 1;
                some = false;
                i += 1;
            }
            Read::Bar => {
                some = false;
                i += 1;
            }
            Read::Close => {
                room += 1;
                i += 1;
            }
            Read::Stop => {
                return Some(Made {
                    tokens: 0,
                    some,
                    end: i,
                });
            }
            Read::Bad => {
                return None;
            }
        }
    }
}

fn narrow(a: usize) -> u16
    requires { a < 65536 }
    ensures { result ≡ a }
{
    a as u16
}

// A kind with the flag "may repeat", if it is to have it.
fn repeated(k: u8, r: bool) -> u8
    ensures { (sortOf result ≡ sortOf k) × (outsideOf result ≡ outsideOf k) × (absentOf result ≡ absentOf k) × (repeatsOf result ≡ (repeatsOf k || r)) }
{
    if r {
        if k % 2 == 0 {
            return k + 1;
        }
        return k;
    }
    k
}

// A kind with the flag "may be absent", if it is to have it.
fn optional(k: u8, o: bool) -> u8
    ensures { (sortOf result ≡ sortOf k) × (outsideOf result ≡ outsideOf k) × (repeatsOf result ≡ repeatsOf k) × (absentOf result ≡ (absentOf k || o)) }
{
    if o {
        if k / 2 % 2 == 0 {
            return k + 2;
        }
        return k;
    }
    k
}

// The branch that begins at an index, with its table. Room for as many tokens as the text has bytes is lent.
fn branch(text: &[u8], from: usize, kinds: &mut [u8], args: &mut [u16]) -> Option<Made>
    requires { (from ≤ length text.now) × (length text.now ≤ 4096) × (length text.now ≤ length kinds.old) × (length text.now ≤ length args.old) }
    ensures { BranchAt text.now from kinds.new args.new result }
{
    // Where the open groups start, the innermost at `room`; where the last piece starts; the rest as above.
    let mut opens: [usize; 8] = [0; 8];
    let mut room: usize = 8;
    let mut last: usize = 0;
    let mut some = false;
    let mut n: usize = 0;
    let mut i = from;
    loop {
        if easy(text, i, false) {
            kinds[n] = 0;
            args[n] = narrow(i);
            last = n;
            some = true;
            n += 1;
            i += 1;
            continue;
        }
        match allowed(text, i, room, some) {
            Read::Item(k, a, j) => {
                kinds[n] = k;
                args[n] = narrow(a);
                last = n;
                some = true;
                n += 1;
                i = j;
            }
            Read::Repeat(r, o) => {
                kinds[last] = repeated(kinds[last], r);
                let e = n - 1;
                kinds[e] = optional(kinds[e], o);
                i += 1;
            }
            Read::Open => {
                room -= 1;
                opens[room] = n;
                kinds[n] = 24;
                args[n] = 0;
                some = false;
                n += 1;
                i += 1;
            }
            Read::Bar => {
                kinds[n] = 32;
                args[n] = 0;
                some = false;
                n += 1;
                i += 1;
            }
            Read::Close => {
                last = opens[room];
                args[last] = narrow(n - last - 1);
                kinds[n] = 40;
                args[n] = 0;
                room += 1;
                n += 1;
                i += 1;
            }
            Read::Stop => {
                return Some(Made {
                    tokens: n,
                    some,
                    end: i,
                });
            }
            Read::Bad => {
                return None;
            }
        }
    }
}

// ---- a branch with its anchors

// Whether a `^` stands at an index, where it may.
fn hat(text: &[u8], i: usize, first: bool) -> bool
    ensures { result ≡ hat_of first (drop i text.now) }
{
    first && begins(text, i, b'^')
}

// What stands behind a branch that was read.
#[derive(Clone, Copy)]
pub enum Turn {
    // The end: how many tokens the branch's table has, whether its start and its end are free.
    Last(usize, bool, bool),
    // Others: how many tokens the branch's table has, whether its start is free, where the next one begins.
    More(usize, bool, usize),
}

// What stands behind a branch, if it is one with its anchors; `hat` says whether a `^` stands before it.
fn behind(text: &[u8], hat: bool, made: Made) -> Option<Turn>
    ensures { BehindAt text.now hat made.tokens made.some made.end result }
{
    let full = made.some | hat;
    let j = made.end;
    if text.len() <= j {
        return if full {
            Some(Turn::Last(made.tokens, !hat, true))
        } else {
            None
        };
    }
    match text[j] {
        b'|' if full => Some(Turn::More(made.tokens, !hat, j + 1)),
        b'$' if j + 1 == text.len() => Some(Turn::Last(made.tokens, !hat, false)),
        _ => None,
    }
}

// The branch that begins at an index; `first` says whether `^` may stand there.
fn next_end(text: &[u8], i: usize, first: bool) -> Option<Turn>
    requires { i ≤ length text.now }
    ensures { TurnAt text.now i first result }
{
    let h = hat(text, i, first);
    let made = branch_end(text, i + usize::from(h))?;
    behind(text, h, made)
}

// The same with its table.
fn next_branch(
    text: &[u8],
    i: usize,
    first: bool,
    kinds: &mut [u8],
    args: &mut [u16],
) -> Option<Turn>
    requires { (i ≤ length text.now) × (length text.now ≤ 4096) × (length text.now ≤ length kinds.old) × (length text.now ≤ length args.old) }
    ensures { TableAt text.now i first kinds.new args.new result }
{
    let h = hat(text, i, first);
    let made = branch(text, i + usize::from(h), kinds, args)?;
    behind(text, h, made)
}

// ---- the whole pattern

// Whether what stands at an index is branches to the end; `start` says whether `^` may stand there.
fn all_branches(p: &[u8], from: usize, start: bool) -> bool
    requires { from ≤ length p.now }
    ensures { result ≡ is_some (branches start (drop from p.now)) }
{
    let mut i = from;
    let mut first = start;
    loop {
        match next_end(p, i, first) {
            Some(Turn::Last(..)) => return true,
            Some(Turn::More(_, _, j)) => {
                i = j;
                first = false;
            }
            None => return false,
        }
    }
}

// Whether a text is a pattern.
pub fn well_formed(p: &[u8]) -> bool
    ensures { result ≡ well_formed p.now }
{
    all_branches(p, 0, true)
}

// Whether the value fits a table of `n` tokens.
fn found(
    s: &[u8],
    s_mark: bool,
    p: &[u8],
    kinds: &[u8],
    args: &[u16],
    marks: &mut [bool],
    n: usize,
    sf: bool,
    ef: bool,
) -> bool
    requires { (n ≤ 4096) × (n ≤ length kinds.now) × (n ≤ length args.now) × (n ≤ length marks.old) }
    ensures { result ≡ decide (tokens_of p.now (take n kinds.now) (take n args.now)) n sf ef (folded s_mark s.now) }
{
    automaton::finds(
        p,
        &kinds[0..n],
        &args[0..n],
        &mut marks[0..n],
        s,
        s_mark,
        sf,
        ef,
    )
}

// "True if some stretch of the value fits": the branches from the left, up to the first that does, and then whether the others are branches at all. Room for as many tokens as the pattern has bytes is lent.
fn search(
    s: &[u8],
    s_mark: bool,
    p: &[u8],
    kinds: &mut [u8],
    args: &mut [u16],
    marks: &mut [bool],
) -> bool
    requires { (length p.now ≤ 4096) × (length p.now ≤ length kinds.old) × (length p.now ≤ length args.old) × (length p.now ≤ length marks.old) }
    ensures { result ≡ held_in (branches_of p.now) (folded s_mark s.now) }
{
    let mut i: usize = 0;
    let mut first = true;
    loop {
        match next_branch(p, i, first, kinds, args) {
            Some(Turn::Last(n, sf, ef)) => {
                return found(s, s_mark, p, kinds, args, marks, n, sf, ef);
            }
            Some(Turn::More(n, sf, j)) => {
                if found(s, s_mark, p, kinds, args, marks, n, sf, true) {
                    return all_branches(p, j, false);
                }
                i = j;
                first = false;
            }
            None => return false,
        }
    }
}

// By arrays that have room for N tokens: a short pattern has short ones, since every element of an array is set before it is used.
fn search_in<const N: usize>(s: &[u8], s_mark: bool, p: &[u8]) -> bool
    requires { (length p.now ≤ N) × (N ≤ 4096) }
    ensures { result ≡ regex_of (folded s_mark s.now) p.now }
{
    let mut kinds = [0u8; N];
    let mut args = [0u16; N];
    let mut marks = [false; N];
    search(s, s_mark, p, &mut kinds, &mut args, &mut marks)
}

// By the pattern's own bytes.
fn fits_plain(s: &[u8], s_mark: bool, p: &[u8]) -> bool
    ensures { result ≡ regex_of (folded s_mark s.now) p.now }
{
    if p.len() <= 32 {
        return search_in::<32>(s, s_mark, p);
    }
    if p.len() <= 256 {
        return search_in::<256>(s, s_mark, p);
    }
    if p.len() <= 4096 {
        return search_in::<4096>(s, s_mark, p);
    }
    false
}

// The bytes of a pattern with A..Z as a..z, in room that is lent.
fn copy_folded(p: &[u8], room: &mut [u8])
    requires { length p.now ≤ length room.old }
    ensures { take (length p.now) room.new ≡ folded true p.now }
{
    for i in 0..p.len() {
        room[i] = fold(true, p[i]);
    }
}

// By a folded copy: no pattern of a checked table is under a folding mark.
fn fits_folded(s: &[u8], s_mark: bool, p: &[u8]) -> bool
    ensures { result ≡ regex_of (folded s_mark s.now) (folded true p.now) }
{
    if 4096 < p.len() {
        return false;
    }
    let mut room = [0u8; 4096];
    copy_folded(p, &mut room);
    fits_plain(s, s_mark, &room[..p.len()])
}

// Whether some stretch of the value fits the pattern, each read under its folding mark. An ill-formed pattern, or one of more than 4,096 bytes, fits nothing.
// Time: for each byte of the value one pass over the pattern's tokens.
pub fn fits(s: &[u8], s_mark: bool, p: &[u8], p_mark: bool) -> bool
    ensures { result ≡ regex_of (folded s_mark s.now) (folded p_mark p.now) }
{
    if p_mark {
        return fits_folded(s, s_mark, p);
    }
    fits_plain(s, s_mark, p)
}
