// Tables: layout, decoding and the check. Document 01, "Table"; document 02, requests 1 and 13: the patterns of `wildcard` and `regex`; request 9: the editions. Every function takes a slice that is exactly the table, wherever it lies.
#![tactic(auto)]

ghost use Rattle.std.specs.Prelude.{◌≡◌, Bool, true, ◌&&◌, List, ℕ, suc, ◌+◌, ◌*◌, ◌≤◌, ◌<◌, leb, eqb, length, get_or, replicate};
ghost use Rattle.std.proofs.Math.Option.{Option, some};
ghost use Rattle.opcode.specs.Opcode.{op_of, Kind, logic, value};
ghost use Rattle.table.specs.Table.{table_kind, count_of, edition_of, entry_at, entries_of, pool_of, layout_of};
ghost use Rattle.table.specs.Check.{in_range, part_right, load_right, entry_right, pop_one, pop, push, pattern_test, operand_right, operands_right, patterns_before, check_of};
ghost use Rattle.table.specs.Parts.{parts_at, parts_of, answered};
ghost use Rattle.table.specs.Groups.{group_of, right_by, takes_by, gives_by, skip_by};
ghost use Rattle.table.specs.Number.{bit_of, number_of, met_by, Landed};

use groups::Group;
use opcode::{Edition, Load};
use refusal::Refusal;

mod groups;

// "Entry: u16 op, u16 a, u64 b."
#[derive(Clone, Copy)]
pub struct Entry {
    pub op: u16,
    pub a: u16,
    pub b: u64,
}

// ---- layout and decoding

// "u16 kind 2"; request 9: "Tables of kind 4 shall be second edition"
const FIRST_KIND: u16 = 2;

const SECOND_KIND: u16 = 4;

// The kind of a table of an edition.
pub fn kind(edition: Edition) -> u16
    ensures { result ≡ table_kind edition }
{
    match edition {
        Edition::First => FIRST_KIND,
        Edition::Second => SECOND_KIND,
    }
}

// The operators whose entries have bytes in the pool, and those that take patterns.
const TEXT: u16 = opcode::TEXT as u16;

const NAME: u16 = opcode::NAME as u16;

const WILDCARD: u16 = opcode::WILDCARD as u16;

const REGEX: u16 = opcode::REGEX as u16;

// The most bytes of a table: the header, 512 entries and a pool of 4,096.
pub const MOST_BYTES: usize = 10 + 12 * 512 + 4096;

// How many entries the table says that it has. It asks for the header, which the layout has.
pub fn count(table: &[u8]) -> usize
    requires { 10 ≤ length table.now }
    ensures { (result ≡ count_of table.now) × (result < 65536) }
{
    word::read_u16(table, 6) as usize
}

// The edition of a table. It asks for the header.
pub fn edition(table: &[u8]) -> Edition
    requires { 10 ≤ length table.now }
    ensures { result ≡ edition_of table.now }
{
    if word::read_u16(table, 4) == SECOND_KIND {
        Edition::Second
    } else {
        Edition::First
    }
}

// The op, the a and the b of the entry i, each alone: where one of them is not needed, it is not read. They test nothing: they ask that the entry lies in the table, which the layout says of each.
pub fn op_at(table: &[u8], i: usize) -> u16
    requires { 22 + 12 * i ≤ length table.now }
    ensures { result ≡ (entry_at table.now i).op }
{
    word::read_u16(table, 10 + 12 * i)
}

pub fn a_at(table: &[u8], i: usize) -> u16
    requires { 22 + 12 * i ≤ length table.now }
    ensures { result ≡ (entry_at table.now i).a }
{
    word::read_u16(table, 12 + 12 * i)
}

pub fn b_at(table: &[u8], i: usize) -> u64
    requires { 22 + 12 * i ≤ length table.now }
    ensures { result ≡ (entry_at table.now i).b }
{
    word::read_u64(table, 14 + 12 * i)
}

// The same by where the entry lies, for a reader that goes along the table: the op of the entry that starts there, the a and the b of the entry that ends there.
pub fn op_from(table: &[u8], start: usize) -> u16
    requires { start + 12 ≤ length table.now }
    ensures { (i : ℕ) → start ≡ 10 + 12 * i → result ≡ (entry_at table.now i).op }
{
    word::read_u16(table, start)
}

pub fn a_to(table: &[u8], end: usize) -> u16
    requires { (12 ≤ end) × (end ≤ length table.now) }
    ensures { (i : ℕ) → end ≡ 22 + 12 * i → result ≡ (entry_at table.now i).a }
{
    word::read_u16(table, end - 10)
}

pub fn b_to(table: &[u8], end: usize) -> u64
    requires { (12 ≤ end) × (end ≤ length table.now) }
    ensures { (i : ℕ) → end ≡ 22 + 12 * i → result ≡ (entry_at table.now i).b }
{
    word::read_u64(table, end - 8)
}

// The entry i. It asks for the same.
pub fn entry_at(table: &[u8], i: usize) -> Entry
    requires { 22 + 12 * i ≤ length table.now }
    ensures { result ≡ entry_at table.now i }
{
    Entry {
        op: op_at(table, i),
        a: a_at(table, i),
        b: b_at(table, i),
    }
}

// The pool, as a part of the table. It asks that the entries lie in the table, which the layout says.
pub fn pool(table: &[u8]) -> &[u8]
    requires { (10 ≤ length table.now) × (10 + 12 * count_of table.now ≤ length table.now) }
    ensures { result.now ≡ pool_of table.now }
{
    let start = 10 + 12 * count(table);
    &table[start..]
}

fn layout_right(table: &[u8]) -> bool
    ensures { result ≡ layout_of table.now }
{
    let len = table.len();
    if len < 10 {
        return false;
    }
    let size = word::read_u32(table, 0) as usize;
    let kind = word::read_u16(table, 4);
    let n = count(table);
    let p = word::read_u16(table, 8) as usize;
    (4 + size == len)
        & (((kind == FIRST_KIND) | (kind == SECOND_KIND))
            & (((1 <= n) & (n <= 512)) & ((p <= 4096) & (10 + 12 * n + p == len))))
}

// ---- an entry by itself

// "int32 widened by sign and in range"
fn in_range(b: u64) -> bool
    ensures { result ≡ in_range b }
{
    (b < 0x8000_0000) | (0xffff_ffff_8000_0000 <= b)
}

// "a + b at most the pool length", with no sum that could wrap.
fn part_right(pool: &[u8], e: Entry) -> bool
    ensures { result ≡ part_right pool.now e }
{
    let start = e.b as usize;
    if pool.len() < start {
        return false;
    }
    (e.a as usize) <= pool.len() - start
}

// "a name keeps the notice's name rules"
fn name_right(pool: &[u8], e: Entry) -> bool
    ensures { result ≡ load_right pool.now Load.Name e }
{
    if !part_right(pool, e) {
        return false;
    }
    let start = e.b as usize;
    let end = start + (e.a as usize);
    notice::name_right(&pool[start..end])
}

// "Unused a and b are zero."
fn unused(e: Entry) -> bool
    ensures { result ≡ (eqb e.a 0 && eqb e.b 0) }
{
    (e.a == 0) & (e.b == 0)
}

fn int32_right(e: Entry) -> bool
    ensures { result ≡ (eqb e.a 0 && in_range e.b) }
{
    (e.a == 0) & in_range(e.b)
}

// "a: literals or values, 1..8"
fn many_right(e: Entry) -> bool
    ensures { result ≡ ((leb 1 e.a && leb e.a 8) && eqb e.b 0) }
{
    ((1 <= e.a) & (e.a <= 8)) & (e.b == 0)
}

// "a: entries passed over, at least 1"
fn passes_some(e: Entry) -> bool
    ensures { result ≡ (leb 1 e.a && eqb e.b 0) }
{
    (1 <= e.a) & (e.b == 0)
}

// The entry by itself, whose operator is of the group `g`.
fn entry_right(pool: &[u8], g: Group, e: Entry) -> bool
    ensures { result ≡ right_by pool.now g e }
{
    match g {
        Group::Int32 => int32_right(e),
        Group::Wide => e.a == 0,
        Group::Text => part_right(pool, e),
        Group::Name => name_right(pool, e),
        Group::Change
        | Group::Not
        | Group::Test
        | Group::Combine
        | Group::Compare
        | Group::Connect => unused(e),
        Group::Many => many_right(e),
        Group::Skip => passes_some(e),
        Group::Unknown => false,
    }
}

// ---- the kinds along the entries, as a number: 1 for the empty stack, then a bit for each slot; 0 for none

// One operand off.
fn pop_one(c: u64, bit: u64) -> u64
    ensures { (t : Kind) (s : Option (List Kind)) → bit ≡ bit_of t → c ≡ number_of s → result ≡ number_of (pop_one t s) }
{
    if c <= 1 {
        return 0;
    }
    if c % 2 != bit {
        return 0;
    }
    c / 2
}

// Two operands of one kind off, their two bits judged at once. The bit is a kind's.
fn pop_two(c: u64, bit: u64) -> u64
    requires { bit < 2 }
    ensures { (t : Kind) (s : Option (List Kind)) → bit ≡ bit_of t → c ≡ number_of s → result ≡ number_of (pop_one t (pop_one t s)) }
{
    if c < 4 {
        return 0;
    }
    if c % 4 != 3 * bit {
        return 0;
    }
    c / 4
}

// A result on, where fewer than 32 slots are taken. The bit is a kind's.
fn push_one(c: u64, bit: u64) -> u64
    requires { bit < 2 }
    ensures { (g : Kind) (s : Option (List Kind)) → bit ≡ bit_of g → c ≡ number_of s → result ≡ number_of (push g s) }
{
    if c == 0 {
        return 0;
    }
    if 0xffff_ffff < c {
        return 0;
    }
    2 * c + bit
}

// A result in the place of one operand.
fn one_flow(c: u64, takes: u64, gives: u64) -> u64
    requires { gives < 2 }
    ensures { (t g : Kind) (s : Option (List Kind)) → takes ≡ bit_of t → gives ≡ bit_of g → c ≡ number_of s → result ≡ number_of (push g (pop_one t s)) }
{
    push_one(pop_one(c, takes), gives)
}

// A result in the place of two operands.
fn two_flow(c: u64, takes: u64, gives: u64) -> u64
    requires { (takes < 2) × (gives < 2) }
    ensures { (t g : Kind) (s : Option (List Kind)) → takes ≡ bit_of t → gives ≡ bit_of g → c ≡ number_of s → result ≡ number_of (push g (pop_one t (pop_one t s))) }
{
    push_one(pop_two(c, takes), gives)
}

// "a: literals or values .. taken from the stack with the first"
fn many_flow(a: u16, c: u64) -> u64
    ensures { (s : Option (List Kind)) → c ≡ number_of s → result ≡ number_of (push logic (pop (replicate (suc a) value) s)) }
{
    let mut d = pop_one(c, 1);
    for _ in 0..a {
        d = pop_one(d, 1);
    }
    push_one(d, 0)
}

// The kinds after an operator of a group with its a, of those before it. "A skip keeps its operand." An unknown op, which is not right by itself, takes nothing.
fn flow(g: Group, a: u16, c: u64) -> u64
    ensures { (s : Option (List Kind)) → c ≡ number_of s → result ≡ number_of (push (gives_by g) (pop (takes_by g a) s)) }
{
    match g {
        Group::Int32 | Group::Wide | Group::Text | Group::Name => push_one(c, 1),
        Group::Change => one_flow(c, 1, 1),
        Group::Not | Group::Skip => one_flow(c, 0, 0),
        Group::Test => one_flow(c, 1, 0),
        Group::Combine => two_flow(c, 1, 1),
        Group::Compare => two_flow(c, 1, 0),
        Group::Connect => two_flow(c, 0, 0),
        Group::Many => many_flow(a, c),
        Group::Unknown => push_one(c, 0),
    }
}

// ---- where skips land: what a landing must find is kept at its index, as a number of kinds; 0 where no skip has landed yet

// "every way of reaching an entry, or the end, finds the same depth and kinds"
fn meets(w: u64, c: u64) -> bool
    ensures { result ≡ met_by w c }
{
    (w == 0) | (w == c)
}

// "a skip lands at or before N", at the kinds that it was reached with: these are wanted there from now on. It asks for an entry, and for room for the entries and the end.
fn land(wanted: &mut [u64], n: usize, i: usize, a: u16, c: u64) -> bool
    requires { (i < n) × (n ≤ 512) × (n < length wanted.old) }
    ensures { Landed true n (i + a + 1) c wanted.old wanted.new result }
{
    let to = i + (a as usize) + 1;
    if n < to {
        return false;
    }
    let w = wanted[to];
    if !meets(w, c) {
        return false;
    }
    wanted[to] = c;
    true
}

// An entry that is no skip, or whose skip lands right. It asks for the same.
fn lands_right(wanted: &mut [u64], g: Group, n: usize, i: usize, a: u16, c: u64) -> bool
    requires { (i < n) × (n ≤ 512) × (n < length wanted.old) }
    ensures { Landed (skip_by g) n (i + a + 1) c wanted.old wanted.new result }
{
    match g {
        Group::Skip => land(wanted, n, i, a, c),
        _ => true,
    }
}

// ---- patterns

// Whether a text is a pattern of an operator that takes patterns.
fn is_pattern(number: u16, p: &[u8]) -> bool
    ensures { (test : List ℕ → Bool) → pattern_test (op_of number) ≡ some test → result ≡ test p.now }
{
    match number {
        WILDCARD => pattern::wildcard::well_formed(p),
        REGEX => regexp::well_formed(p),
        _ => false,
    }
}

// An op 4 entry whose string is a pattern of the operator. It asks that a string lies in the pool.
fn operand_right(pool: &[u8], number: u16, e: Entry) -> bool
    requires { e.op ≡ 4 → part_right pool.now e ≡ true }
    ensures { (test : List ℕ → Bool) → pattern_test (op_of number) ≡ some test → result ≡ operand_right test pool.now e }
{
    if e.op != TEXT {
        return false;
    }
    let start = e.b as usize;
    let past = start + (e.a as usize);
    is_pattern(number, &pool[start..past])
}

// The `a` entries directly before the entry i, from the last one on. It asks that the entries lie in the table, and that those before i are right by themselves.
fn operands_right(table: &[u8], pool: &[u8], number: u16, i: usize, a: u16) -> bool
    requires { (i ≤ count_of table.now) × (10 + 12 * count_of table.now ≤ length table.now) × ((k : ℕ) → k < i → entry_right pool.now (entry_at table.now k) ≡ true) }
    ensures { (test : List ℕ → Bool) → pattern_test (op_of number) ≡ some test → result ≡ operands_right test pool.now (entries_of table.now) i a }
{
    for k in 0..a as usize {
        if i <= k {
            return false;
        }
        let e = entry_at(table, i - k - 1);
        if !operand_right(pool, number, e) {
            return false;
        }
    }
    true
}

// The entry i by itself, and the patterns directly before it if its operator takes patterns. It asks for the same, and for the operator's group.
fn placed_right(table: &[u8], pool: &[u8], g: Group, i: usize, e: Entry) -> bool
    requires { (i ≤ count_of table.now) × (10 + 12 * count_of table.now ≤ length table.now) × ((k : ℕ) → k < i → entry_right pool.now (entry_at table.now k) ≡ true) × (g ≡ group_of (op_of e.op)) }
    ensures { result ≡ (right_by pool.now g e && patterns_before pool.now (entries_of table.now) i e) }
{
    if (e.op != WILDCARD) & (e.op != REGEX) {
        return entry_right(pool, g, e);
    }
    many_right(e) & operands_right(table, pool, e.op, i, e.a)
}

// ---- the check

// The check of what the layout holds, in one pass over the entries. It asks for the layout, which its caller has tested, and for room where nothing is wanted yet.
fn kinds_right(table: &[u8], n: usize, wanted: &mut [u64]) -> bool
    requires { (layout_of table.now ≡ true) × (n ≡ count_of table.now) × (n < length wanted.old) × ((k : ℕ) → get_or wanted.old k 0 ≡ 0) }
    ensures { result ≡ check_of table.now }
{
    let strings = pool(table);
    let mut c = 1;
    for i in 0..n {
        let w = wanted[i];
        if !meets(w, c) {
            return false;
        }
        let e = entry_at(table, i);
        let g = groups::group_of(e.op);
        if !placed_right(table, strings, g, i, e) {
            return false;
        }
        if !lands_right(wanted, g, n, i, e.a, c) {
            return false;
        }
        c = flow(g, e.a, c);
        if c == 0 {
            return false;
        }
    }
    // one logic slot
    let w = wanted[n];
    (c == 2) & meets(w, c)
}

// The same with an array of N for what is wanted, 0 at first.
fn kinds_right_in<const N: usize>(table: &[u8], n: usize) -> bool
    requires { (layout_of table.now ≡ true) × (n ≡ count_of table.now) × (n < N) × (N ≤ 513) }
    ensures { result ≡ check_of table.now }
{
    let mut wanted = [0u64; N];
    kinds_right(table, n, &mut wanted)
}

// Whether the table passes; refusal 12 if not. A small table has a small array, since every element of an array is set before it is used.
// The table is lent on as a part of itself: as it came, its pointer and length would be copied through memory in one piece, which waits for their stores.
pub fn check(table: &[u8]) -> bool
    ensures { result ≡ check_of table.now }
{
    if !layout_right(table) {
        return false;
    }
    let n = count(table);
    let whole = &table[0..];
    if n < 16 {
        return kinds_right_in::<16>(whole, n);
    }
    if n < 64 {
        return kinds_right_in::<64>(whole, n);
    }
    kinds_right_in::<513>(whole, n)
}

// ---- what an entry is

// What an entry of a table is: its op, a and b, and for a string or a name where its bytes lie in the table, from `start` to `end`; 0 and 0 for the others.
#[derive(Clone, Copy)]
pub struct EntryParts {
    pub op: u16,
    pub a: u16,
    pub b: u64,
    pub start: usize,
    pub end: usize,
}

// The entry k of a table that passes the check.
fn parts_at(table: &[u8], k: usize) -> EntryParts
    requires { (check_of table.now ≡ true) × (k < count_of table.now) }
    ensures { answered (Ok result) ≡ parts_at table.now k }
{
    let e = entry_at(table, k);
    let mut start = 0;
    let mut end = 0;
    if (e.op == TEXT) | (e.op == NAME) {
        start = 10 + 12 * count(table) + e.b as usize;
        end = start + e.a as usize;
    }
    EntryParts {
        op: e.op,
        a: e.a,
        b: e.b,
        start,
        end,
    }
}

// For support staff (document 02, request 7): what the entry is whose number a run carries. Refused if the table fails its check, or has no entry k.
pub fn parts_of(table: &[u8], k: usize) -> Result<EntryParts, Refusal>
    ensures { answered result ≡ parts_of table.now k }
{
    if !check(table) {
        return Err(Refusal::Table);
    }
    if count(table) <= k {
        return Err(Refusal::Index);
    }
    Ok(parts_at(table, k))
}
