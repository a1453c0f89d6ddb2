// A position automaton over a table of tokens (Fischer, Huch and Wilke): one pass of the marks over the table for each byte of a value, so that no input costs more than its length times the table's.
#![tactic(auto)]

ghost use Rattle.std.specs.Prelude.{◌≡◌, ◌==◌, position, unwrap_or, Bool, true, false, cond, ◌||◌, ◌&&◌, [], ◌+◌, ◌-◌, ◌*◌, ◌≤◌, ◌<◌, ltb, length, get_or, replicate, drop};
ghost use Rattle.octets.specs.Octets.{fold, folded};
ghost use Rattle.automaton.specs.Table.{repeats as repeatsOf, absent as absentOf, outside as outsideOf, sort as sortOf, held_of, hits as hitsOf, mark_by, level_by, tokens_of};
ghost use Rattle.automaton.specs.Pass.{started as startedOf, passed as passedOf, barred as barredOf, closed as closedOf, pass, left, depth_by, up_of};
ghost use Rattle.automaton.specs.Decide.{walk_on, run_on, decide};
ghost use Rattle.automaton.specs.Word.{bit_if, cells_in, ended_in, single as singleOf, plain as plain_of, optional as optionalOf, small as smallOf, Leads, Low, Reaches};

use octets::fold;
use pattern::sets::{SetTest, set_test};

// ---- a token: the byte of its kind, and a number

// Whether what the token stands for may repeat.
fn repeats(k: u8) -> bool
    ensures { result ≡ repeatsOf k }
{
    k % 2 == 1
}

// Whether it may be absent.
fn absent(k: u8) -> bool
    ensures { result ≡ absentOf k }
{
    k / 2 % 2 == 1
}

// Whether it stands for the complement of its set.
fn outside(k: u8) -> bool
    ensures { result ≡ outsideOf k }
{
    k / 4 % 2 == 1
}

// 0 a byte of the text, 1 any byte, 2 a set, 3 the start of a group, 4 a bar, 5 the end of a group.
fn sort(k: u8) -> u8
    ensures { result ≡ sortOf k }
{
    k / 8
}

// Whether a set that was read has the byte; what is no set has none.
fn held(t: Option<SetTest>) -> bool
    ensures { result ≡ held_of t }
{
    match t {
        Some(set) => set.hit,
        None => false,
    }
}

// Whether the token takes a byte; the number says where its text stands.
fn hits(text: &[u8], kind: u8, at: usize, c: u8) -> bool
    ensures { result ≡ hitsOf text.now kind at c }
{
    let s = sort(kind);
    if 2 < s {
        return false;
    }
    if s == 0 {
        return at < text.len() && text[at] == c;
    }
    if s == 1 {
        return true;
    }
    held(set_test(text, false, at, c)) != outside(kind)
}

// The same where a way enters: elsewhere the set is not looked at.
fn hit_if(enter: bool, text: &[u8], kind: u8, at: usize, c: u8) -> bool
    ensures { result ≡ (hitsOf text.now kind at c && enter) }
{
    if enter {
        return hits(text, kind, at, c);
    }
    false
}

// ---- the pass

// Where the pass stands in a group: what enters its branches, what its finished branches gave (a way ended, it may be empty, a way ends now), and the same of the branch so far.
#[derive(Clone, Copy)]
pub struct Level {
    pub into: bool,
    pub out: bool,
    pub none: bool,
    pub done: bool,
    pub cur: bool,
    pub emp: bool,
    pub fin: bool,
}

// The first branch of a group begins.
fn started(k: bool) -> Level
    ensures { result ≡ startedOf k }
{
    Level {
        into: k,
        out: false,
        none: false,
        done: false,
        cur: k,
        emp: true,
        fin: false,
    }
}

// The cell that a token leaves: `starts`, `bars` and `ends` say which token of a group it is.
fn mark(starts: bool, bars: bool, ends: bool, hit: bool, was: bool, l: Level) -> bool
    ensures { result ≡ mark_by starts bars ends hit was l }
{
    if starts {
        return was;
    }
    if bars {
        return was;
    }
    if ends {
        return l.done | l.fin;
    }
    hit
}

// The level behind a token that is no part of a group's shape.
fn past_one(o: bool, was: bool, hit: bool, l: Level) -> Level
    ensures { result ≡ passedOf l o was hit }
{
    Level {
        into: l.into,
        out: l.out,
        none: l.none,
        done: l.done,
        cur: (l.cur & o) | was,
        emp: l.emp & o,
        fin: (l.fin & o) | hit,
    }
}

// The next branch of a group begins.
fn barred(l: Level) -> Level
    ensures { result ≡ barredOf l }
{
    Level {
        into: l.into,
        out: l.out | l.cur,
        none: l.none | l.emp,
        done: l.done | l.fin,
        cur: l.into,
        emp: true,
        fin: false,
    }
}

// A group ends, where `up` is the level around it.
fn closed(up: Level, l: Level, o: bool) -> Level
    ensures { result ≡ closedOf up l o }
{
    let e = o | (l.none | l.emp);
    Level {
        into: up.into,
        out: up.out,
        none: up.none,
        done: up.done,
        cur: (up.cur & o) | (l.out | l.cur),
        emp: up.emp & e,
        fin: (up.fin & e) | (l.done | l.fin),
    }
}

// The level behind any token, where `up` is the level of the group around.
fn next_level(
    starts: bool,
    bars: bool,
    ends: bool,
    enter: bool,
    o: bool,
    was: bool,
    hit: bool,
    up: Level,
    l: Level,
) -> Level
    ensures { result ≡ level_by starts bars ends enter o was hit up l }
{
    if starts {
        return started(enter);
    }
    if bars {
        return barred(l);
    }
    if ends {
        return closed(up, l, o);
    }
    past_one(o, was, hit, l)
}

fn cell(s: &[bool], i: usize) -> bool
    ensures { result ≡ get_or s.now i false }
{
    i < s.len() && s[i]
}

// How many levels are kept behind a token.
fn depth_after(starts: bool, bars: bool, ends: bool, d: usize) -> usize
    requires { d ≤ 8 }
    ensures { (result ≡ depth_by starts bars ends d) × (result ≤ 8) }
{
    if starts {
        if d < 8 {
            return d + 1;
        }
        return d;
    }
    if bars {
        return d;
    }
    if ends {
        return d.saturating_sub(1);
    }
    d
}

fn up(d: usize, x: Level) -> Level
    ensures { result ≡ up_of d x }
{
    if d == 0 {
        return started(false);
    }
    x
}

// One byte of the value, over the whole table.
fn shift(text: &[u8], kinds: &[u8], args: &[u16], marks: &mut [bool], k: bool, c: u8) -> Level
    requires { (length kinds.now < 65536) × (length args.now ≡ length kinds.now) × (length marks.old ≡ length kinds.now) }
    ensures { pass (tokens_of text.now kinds.now args.now) marks.old c (startedOf k) [] ≡ left marks.new result }
{
    let mut l = started(k);
    let mut stack = [l; 9];
    let mut depth: usize = 0;
    for i in 0..kinds.len() {
        let kind = kinds[i];
        let arg = usize::from(args[i]);
        let s = sort(kind);
        let was = marks[i];
        let rep = repeats(kind);
        let hit = hit_if(l.cur | (rep & was), text, kind, arg, c);
        // A set leaves the stack as it is.
        if s < 3 {
            marks[i] = hit;
            l = past_one(absent(kind), was, hit, l);
            continue;
        }
        let starts = s == 3;
        let bars = s == 4;
        let ends = s == 5;
        let enter = l.cur | (rep & cell(marks, i + 1 + arg));
        let d = depth.saturating_sub(1);
        let above = up(depth, stack[d]);
        marks[i] = mark(starts, bars, ends, hit, was, l);
        stack[depth] = l;
        l = next_level(starts, bars, ends, enter, absent(kind), was, hit, above, l);
        depth = depth_after(starts, bars, ends, depth);
    }
    l
}

// ---- the value

// The value from an index on: `fin` and `k` say whether a way ended before it and whether one enters, `empty` whether nothing fits, `sf` and `ef` whether the stretch's start and end are free.
fn walk(
    text: &[u8],
    kinds: &[u8],
    args: &[u16],
    marks: &mut [bool],
    empty: bool,
    value: &[u8],
    mark: bool,
    sf: bool,
    ef: bool,
    from: usize,
    ended: bool,
    enters: bool,
) -> bool
    requires { (length kinds.now < 65536) × (length args.now ≡ length kinds.now) × (length marks.old ≡ length kinds.now) × (from ≤ length value.now) }
    ensures { result ≡ walk_on (tokens_of text.now kinds.now args.now) sf ef empty marks.old ended enters (folded «mark» (drop from value.now)) }
{
    let mut fin = ended;
    let mut k = enters;
    for i in from..value.len() {
        if ef & (fin | (k & empty)) {
            return true;
        }
        let l = shift(text, kinds, args, marks, k, fold(mark, value[i]));
        fin = l.fin;
        k = sf;
    }
    fin | (k & empty)
}

// The same with a first pass, into which nothing enters.
fn run(
    text: &[u8],
    kinds: &[u8],
    args: &[u16],
    marks: &mut [bool],
    value: &[u8],
    mark: bool,
    sf: bool,
    ef: bool,
) -> bool
    requires { (length kinds.now < 65536) × (length args.now ≡ length kinds.now) × (length marks.old ≡ length kinds.now) }
    ensures { result ≡ run_on (tokens_of text.now kinds.now args.now) marks.old sf ef (folded «mark» value.now) }
{
    let l = shift(text, kinds, args, marks, false, 0);
    walk(
        text, kinds, args, marks, l.emp, value, mark, sf, ef, 0, false, true,
    )
}

// ---- small tables: a pass over the bits of a word

// Whether a token takes one byte.
fn single(k: u8) -> bool
    ensures { result ≡ singleOf k }
{
    sort(k) < 3
}

// Whether the table has no groups.
fn plain(kinds: &[u8]) -> bool
    ensures { result ≡ plain_of kinds.now }
{
    kinds.iter().all(|k| single(*k))
}

// Whether its cells are read as the bits of a word.
fn small(kinds: &[u8]) -> bool
    ensures { result ≡ smallOf kinds.now }
{
    kinds.len() <= 62 && plain(kinds)
}

// Whether every token may be absent.
fn optional(kinds: &[u8]) -> bool
    ensures { result ≡ optionalOf kinds.now }
{
    kinds.iter().all(|k| absent(*k))
}

// One byte of the value; where no way is open and no mark is left, the rest of the table is passed over.
fn shift_word(text: &[u8], kinds: &[u8], args: &[u16], w: u64, k: bool, c: u8) -> u64
    requires { (smallOf kinds.now ≡ true) × (length args.now ≡ length kinds.now) }
    ensures { Leads (tokens_of text.now kinds.now args.now) (length kinds.now) k c w result }
{
    let mut cur = k;
    let mut fin = false;
    let mut rest = w / 2;
    let mut out: u64 = 0;
    let mut bit: u64 = 1;
    for i in 0..kinds.len() {
        if !(cur | fin) & (rest == 0) {
            return out * 2;
        }
        let kind = kinds[i];
        let arg = usize::from(args[i]);
        let was = rest % 2 == 1;
        let rep = repeats(kind);
        let o = absent(kind);
        let hit = hit_if(cur | (rep & was), text, kind, arg, c);
        cur = (cur & o) | was;
        fin = (fin & o) | hit;
        if hit {
            out += bit;
        }
        bit *= 2;
        rest /= 2;
    }
    out * 2 + u64::from(fin)
}

// The value from an index on, where the word stands for what was read before.
fn walk_word(
    text: &[u8],
    kinds: &[u8],
    args: &[u16],
    empty: bool,
    value: &[u8],
    mark: bool,
    sf: bool,
    ef: bool,
    from: usize,
    word: u64,
    enters: bool,
) -> bool
    requires { (smallOf kinds.now ≡ true) × (length args.now ≡ length kinds.now) × (from ≤ length value.now) }
    ensures { result ≡ walk_on (tokens_of text.now kinds.now args.now) sf ef empty (cells_in (length kinds.now) word) (ended_in word) enters (folded «mark» (drop from value.now)) }
{
    let mut w = word;
    let mut k = enters;
    for i in from..value.len() {
        if ef & ((w % 2 == 1) | (k & empty)) {
            return true;
        }
        w = shift_word(text, kinds, args, w, k, fold(mark, value[i]));
        k = sf;
    }
    (w % 2 == 1) | (k & empty)
}

// ---- long values: where a byte leads from a word is told once

// The cells of a word.
fn unpack(w: u64, marks: &mut [bool])
    ensures { marks.new ≡ cells_in (length marks.old) w }
{
    let mut rest = w / 2;
    for m in marks.iter_mut() {
        *m = rest % 2 == 1;
        rest /= 2;
    }
}

// The word of cells.
fn pack(marks: &[bool], fin: bool) -> u64
    requires { length marks.now ≤ 62 }
    ensures { (cells_in (length marks.now) result ≡ marks.now) × (ended_in result ≡ fin) }
{
    let mut out: u64 = 0;
    let mut bit: u64 = 1;
    for m in marks {
        if *m {
            out += bit;
        }
        bit *= 2;
    }
    out * 2 + u64::from(fin)
}

// One byte of the value, by way of the marks; what they are afterwards is left free.
fn lead(text: &[u8], kinds: &[u8], args: &[u16], marks: &mut [bool], w: u64, k: bool, c: u8) -> u64
    requires { (length kinds.now ≤ 62) × (length args.now ≡ length kinds.now) × (length marks.old ≡ length kinds.now) }
    ensures { Leads (tokens_of text.now kinds.now args.now) (length kinds.now) k c w result }
{
    unpack(w, marks);
    let l = shift(text, kinds, args, marks, k, c);
    pack(marks, l.fin)
}

// The value from an index on, where the word stands for what was read before.
fn walk_on(
    text: &[u8],
    kinds: &[u8],
    args: &[u16],
    marks: &mut [bool],
    single: bool,
    empty: bool,
    value: &[u8],
    mark: bool,
    sf: bool,
    ef: bool,
    from: usize,
    w: u64,
) -> bool
    requires { (length kinds.now ≤ 62) × (length args.now ≡ length kinds.now) × (length marks.old ≡ length kinds.now) × (single ≡ plain_of kinds.now) × (from ≤ length value.now) }
    ensures { result ≡ walk_on (tokens_of text.now kinds.now args.now) sf ef empty (cells_in (length kinds.now) w) (ended_in w) sf (folded «mark» (drop from value.now)) }
{
    if single {
        return walk_word(text, kinds, args, empty, value, mark, sf, ef, from, w, sf);
    }
    unpack(w, marks);
    walk(
        text,
        kinds,
        args,
        marks,
        empty,
        value,
        mark,
        sf,
        ef,
        from,
        w % 2 == 1,
        sf,
    )
}

// The number of a word among the first `count` that are held, from 1 on, or the next number.
fn place(held: &[u64], count: usize, w: u64) -> usize
    requires { (count ≤ 7) × (length held.now ≡ 8) }
    ensures { (0 < result) × (result ≤ count + 1) × (result ≤ count → get_or held.now result 0 ≡ w) }
{
    for i in 1..count + 1 {
        if held[i] == w {
            return i;
        }
    }
    count + 1
}

// Where is told where a byte leads from the word of a number.
fn spot(c: u8, s: usize) -> usize
    requires { s < 8 }
    ensures { (result ≡ c * 8 + s) × (result < 2048) }
{
    usize::from(c) * 8 + s
}

// The same, and what was told is kept for up to seven words: `held` has them from 1 on, `next` the number of the word where a byte leads, or 0.
fn walk_told(
    text: &[u8],
    kinds: &[u8],
    args: &[u16],
    marks: &mut [bool],
    single: bool,
    empty: bool,
    value: &[u8],
    mark: bool,
    sf: bool,
    ef: bool,
    from: usize,
    word: u64,
) -> bool
    requires { (length kinds.now ≤ 62) × (length args.now ≡ length kinds.now) × (length marks.old ≡ length kinds.now) × (single ≡ plain_of kinds.now) × (from ≤ length value.now) }
    ensures { result ≡ walk_on (tokens_of text.now kinds.now args.now) sf ef empty (cells_in (length kinds.now) word) (ended_in word) sf (folded «mark» (drop from value.now)) }
{
    let mut next = [0u8; 2048];
    let mut held = [word; 8];
    let mut count: usize = 1;
    let mut s: usize = 1;
    for i in from..value.len() {
        let w = held[s];
        if ef & ((w % 2 == 1) | (sf & empty)) {
            return true;
        }
        let c = fold(mark, value[i]);
        let j = spot(c, s);
        let t = usize::from(next[j]);
        if 0 < t {
            s = t;
            continue;
        }
        let x = lead(text, kinds, args, marks, w, sf, c);
        let n = place(&held, count, x);
        if 7 < n {
            return walk_on(
                text,
                kinds,
                args,
                marks,
                single,
                empty,
                value,
                mark,
                sf,
                ef,
                i + 1,
                x,
            );
        }
        held[n] = x;
        next[j] = n as u8;
        count = count.max(n);
        s = n;
    }
    let w = held[s];
    (w % 2 == 1) | (sf & empty)
}

// The index of the first byte of a kind.
fn first(value: &[u8], mark: bool, b: u8) -> Option<usize>
    ensures { result ≡ position (λ c. fold «mark» c == b) value.now }
{
    value.iter().position(|c| fold(mark, *c) == b)
}

// Where the search may begin: a table that begins with one byte of the text, which may not be absent, finds nothing before the first such byte.
fn start(text: &[u8], kinds: &[u8], args: &[u16], value: &[u8], mark: bool) -> usize
    requires { (smallOf kinds.now ≡ true) × (length args.now ≡ length kinds.now) }
    ensures { (result ≤ length value.now) × ((ef : Bool) → decide (tokens_of text.now kinds.now args.now) (length kinds.now) true ef (folded «mark» (drop result value.now)) ≡ decide (tokens_of text.now kinds.now args.now) (length kinds.now) true ef (folded «mark» value.now)) }
{
    if kinds.is_empty() || kinds[0] != 0 {
        return 0;
    }
    let at = usize::from(args[0]);
    if text.len() <= at {
        return 0;
    }
    first(value, mark, text[at]).unwrap_or(value.len())
}

// The same where the table is small and the start is free; else the value's start.
fn start_if(
    single: bool,
    text: &[u8],
    kinds: &[u8],
    args: &[u16],
    value: &[u8],
    mark: bool,
    sf: bool,
) -> usize
    requires { (single ≡ smallOf kinds.now) × (length args.now ≡ length kinds.now) }
    ensures { (result ≤ length value.now) × ((ef : Bool) → decide (tokens_of text.now kinds.now args.now) (length kinds.now) sf ef (folded «mark» (drop result value.now)) ≡ decide (tokens_of text.now kinds.now args.now) (length kinds.now) sf ef (folded «mark» value.now)) }
{
    if single & sf {
        return start(text, kinds, args, value, mark);
    }
    0
}

// The search from an index of the value on.
fn finds_long(
    text: &[u8],
    kinds: &[u8],
    args: &[u16],
    marks: &mut [bool],
    value: &[u8],
    mark: bool,
    sf: bool,
    ef: bool,
    from: usize,
) -> bool
    requires { (length kinds.now ≤ 62) × (length args.now ≡ length kinds.now) × (length marks.old ≡ length kinds.now) × (from < length value.now) }
    ensures { result ≡ decide (tokens_of text.now kinds.now args.now) (length kinds.now) sf ef (folded «mark» (drop from value.now)) }
{
    marks.fill(false);
    let l = shift(text, kinds, args, marks, false, 0);
    if ef & l.emp {
        return true;
    }
    let single = plain(kinds);
    let w = pack(marks, false);
    let x = lead(text, kinds, args, marks, w, true, fold(mark, value[from]));
    walk_told(
        text,
        kinds,
        args,
        marks,
        single,
        l.emp,
        value,
        mark,
        sf,
        ef,
        from + 1,
        x,
    )
}

// ---- large tables without groups

// What a pass leaves: how far marks stand, and whether a way has ended.
#[derive(Clone, Copy)]
pub struct Reach {
    pub top: usize,
    pub fin: bool,
}

// One byte of the value, where no mark stands from `top` on; where no way is open there, the rest of the table is passed over.
fn shift_plain(
    text: &[u8],
    kinds: &[u8],
    args: &[u16],
    marks: &mut [bool],
    top: usize,
    k: bool,
    c: u8,
) -> Reach
    requires { (length kinds.now < 65536) × (length args.now ≡ length kinds.now) × (length marks.old ≡ length kinds.now) × (plain_of kinds.now ≡ true) × Low marks.old top }
    ensures { Reaches (tokens_of text.now kinds.now args.now) marks.old k c marks.new result }
{
    let mut cur = k;
    let mut fin = false;
    let mut high: usize = 0;
    for i in 0..kinds.len() {
        if !(cur | fin) & (top <= i) {
            return Reach {
                top: high,
                fin: false,
            };
        }
        let kind = kinds[i];
        let arg = usize::from(args[i]);
        let was = marks[i];
        let rep = repeats(kind);
        let o = absent(kind);
        let hit = hit_if(cur | (rep & was), text, kind, arg, c);
        marks[i] = hit;
        cur = (cur & o) | was;
        fin = (fin & o) | hit;
        if hit {
            high = i + 1;
        }
    }
    Reach { top: high, fin }
}

// The value from the left.
fn walk_plain(
    text: &[u8],
    kinds: &[u8],
    args: &[u16],
    marks: &mut [bool],
    empty: bool,
    value: &[u8],
    mark: bool,
    sf: bool,
    ef: bool,
) -> bool
    requires { (length kinds.now < 65536) × (length args.now ≡ length kinds.now) × (length marks.old ≡ length kinds.now) × (plain_of kinds.now ≡ true) × Low marks.old 0 }
    ensures { result ≡ walk_on (tokens_of text.now kinds.now args.now) sf ef empty marks.old false true (folded «mark» value.now) }
{
    let mut top: usize = 0;
    let mut fin = false;
    let mut k = true;
    for c in value {
        if ef & (fin | (k & empty)) {
            return true;
        }
        let l = shift_plain(text, kinds, args, marks, top, k, fold(mark, *c));
        top = l.top;
        fin = l.fin;
        k = sf;
    }
    fin | (k & empty)
}

// Whether a stretch of the value fits the table; room for a mark for each token is lent. What the marks are afterwards is left free.
pub fn finds(
    text: &[u8],
    kinds: &[u8],
    args: &[u16],
    marks: &mut [bool],
    value: &[u8],
    mark: bool,
    sf: bool,
    ef: bool,
) -> bool
    requires { (length kinds.now < 65536) × (length args.now ≡ length kinds.now) × (length marks.old ≡ length kinds.now) }
    ensures { result ≡ decide (tokens_of text.now kinds.now args.now) (length kinds.now) sf ef (folded «mark» value.now) }
{
    let single = small(kinds);
    let from = start_if(single, text, kinds, args, value, mark, sf);
    if (kinds.len() <= 62) & (from + 48 <= value.len()) {
        return finds_long(text, kinds, args, marks, value, mark, sf, ef, from);
    }
    if single {
        return walk_word(
            text,
            kinds,
            args,
            optional(kinds),
            value,
            mark,
            sf,
            ef,
            from,
            0,
            true,
        );
    }
    marks.fill(false);
    if plain(kinds) {
        return walk_plain(
            text,
            kinds,
            args,
            marks,
            optional(kinds),
            value,
            mark,
            sf,
            ef,
        );
    }
    run(text, kinds, args, marks, value, mark, sf, ef)
}
