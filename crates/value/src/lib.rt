// Values as a table's run holds them, and what each operator and function gives. Document 01, "Meaning", "Table".
// No function here asks anything of its operands: what a piece names beyond its source is not there, and an operand of the other kind counts as bottom.
// Only `find_name` and `field` ask something, which the two checks have answered: that the notice was found well-formed and the starts of its fields are at hand, so that a name is found by halving, that the name lies in the pool, and that the
// field found is right.
#![tactic(auto)]

ghost use Rattle.std.specs.Prelude.{◌≡◌, true, List, ℕ, ◌+◌, ◌%◌, ◌≤◌, length, take, drop};
ghost use Rattle.notice.specs.Field.{size_right};
ghost use Rattle.notice.specs.Layout.{check_of as noticeCheck, Indexed};
ghost use Rattle.notice.specs.Lookup.{lookup_of};
ghost use Rattle.opcode.specs.Groups.{equality_by};
ghost use Rattle.opcode.specs.declared.Edition.{Edition};
ghost use Rattle.opcode.specs.declared.Load.{Load};
ghost use Rattle.opcode.specs.declared.Unary.{Unary};
ghost use Rattle.opcode.specs.declared.Compare.{Compare};
ghost use Rattle.opcode.specs.declared.Connective.{Connective};
ghost use Rattle.opcode.specs.declared.Binary.{Binary};
ghost use Rattle.value.specs.Value.{bottom, logic, value, is_bottom, truth_in, value_in, unary_of, binary_of, start_of, open_of, join_of, beside_of, more_of, field_value, in_pool, load_of};
ghost use Rattle.value.specs.Held.{typed_of, item_in, PairOf, pooled};

mod fields;
mod texts;
mod values;

use notice::FoundField;
use opcode::{Change, Combine, Edition, Many, Order, Test};
pub use texts::fetch;
use truth::Truth;

// "a string on the stack stands in the table's pool or in the notice"
#[derive(Clone, Copy)]
pub enum Origin {
    Pool,
    Notice,
}

// A part of the pool or of the notice, "a folded one with a mark beside it". The two marks stand before the numbers: a piece then ends where a value's 64-bit numbers begin, so that the compiler keeps its parts in registers.
#[derive(Clone, Copy)]
pub struct Piece {
    pub origin: Origin,
    pub folded: bool,
    pub start: u16,
    pub len: u16,
}

#[derive(Clone, Copy)]
pub enum Typed {
    Bottom,
    Int32(i32),
    Int64(i64),
    Real(f64),
    Text(Piece),
    Opaque(Piece),
}

// "A slot holds a truth value or a value of some type"
#[derive(Clone, Copy)]
pub enum Held {
    Logic(Truth),
    Value(Typed),
}

#[derive(Clone, Copy)]
pub struct Slot {
    pub held: Held,
}

// A slot that holds a truth value, and one that holds a value.
pub fn decided(t: Truth) -> Slot
    ensures { (p : List ℕ) → (q : List ℕ) → item_in p q result ≡ logic t }
{
    Slot {
        held: Held::Logic(t),
    }
}

fn valued(v: Typed) -> Slot
    ensures { (p : List ℕ) → (q : List ℕ) → item_in p q result ≡ value (typed_of p q v) }
{
    Slot {
        held: Held::Value(v),
    }
}

// What a slot holds as an operand of either kind; the other kind counts as bottom.
pub fn truth_in(s: Slot) -> Truth
    ensures { (p : List ℕ) → (q : List ℕ) → result ≡ truth_in (item_in p q s) }
{
    let h = s.held;
    match h {
        Held::Logic(t) => t,
        Held::Value(_) => Truth::Bottom,
    }
}

fn value_in(s: Slot) -> Typed
    ensures { (p : List ℕ) → (q : List ℕ) → typed_of p q result ≡ value_in (item_in p q s) }
{
    let h = s.held;
    match h {
        Held::Logic(_) => Typed::Bottom,
        Held::Value(v) => v,
    }
}

// The operands of an operator on two values, none of them bottom. Each slot is told before its value: of a value made from either kind of slot the compiler reads the type wider than it was stored, and the processor waits for the store.
fn paired(s: Slot, t: Slot) -> Option<(Typed, Typed)>
    ensures { (p : List ℕ) → (q : List ℕ) → PairOf p q result (item_in p q s) (item_in p q t) }
{
    let h = s.held;
    match h {
        Held::Logic(_) => None,
        Held::Value(v) => paired_with(v, t),
    }
}

fn paired_with(v: Typed, t: Slot) -> Option<(Typed, Typed)>
    ensures { (p : List ℕ) → (q : List ℕ) → PairOf p q result (value (typed_of p q v)) (item_in p q t) }
{
    let h = t.held;
    match h {
        Held::Logic(_) => None,
        Held::Value(w) => {
            if values::any_bottom(v, w) {
                None
            } else {
                Some((v, w))
            }
        }
    }
}

// Whether a slot holds bottom.
pub fn is_bottom(s: Slot) -> bool
    ensures { (p : List ℕ) → (q : List ℕ) → result ≡ is_bottom (item_in p q s) }
{
    let h = s.held;
    match h {
        Held::Logic(t) => t == Truth::Bottom,
        Held::Value(v) => values::type_of(v) == 0,
    }
}

// The operators of one operand and of two, from slots to a slot, a function for each group (`Unary`, `Binary`): a run then stores each group's answer by itself.
// Op 40.
pub fn not(s: Slot) -> Slot
    ensures { (p : List ℕ) → (q : List ℕ) → item_in p q result ≡ unary_of Unary.Not (item_in p q s) }
{
    decided(truth::not(truth_in(s)))
}

// Ops 6..8.
pub fn change(pool: &[u8], notice: &[u8], op: Change, s: Slot) -> Slot
    ensures { item_in pool.now notice.now result ≡ unary_of (Unary.Change op) (item_in pool.now notice.now s) }
{
    valued(values::change(pool, notice, op, value_in(s)))
}

// Ops 48..54. The slot is told first, as in `paired`.
pub fn test(op: Test, s: Slot) -> Slot
    ensures { (p : List ℕ) → (q : List ℕ) → item_in p q result ≡ unary_of (Unary.Test op) (item_in p q s) }
{
    let h = s.held;
    match h {
        Held::Logic(_) => decided(Truth::Bottom),
        Held::Value(v) => decided(values::test(op, v)),
    }
}

// Ops 16..26.
pub fn combine(edition: Edition, op: Combine, s: Slot, t: Slot) -> Slot
    ensures { (p : List ℕ) → (q : List ℕ) → item_in p q result ≡ binary_of edition (Binary.Combine op) (item_in p q s) (item_in p q t) }
{
    match paired(s, t) {
        None => valued(Typed::Bottom),
        Some((v, w)) => valued(values::combine(edition, op, v, w)),
    }
}

// Ops 32 and 33; `!=` is the negated one.
pub fn equality(pool: &[u8], notice: &[u8], negated: bool, s: Slot, t: Slot) -> Slot
    ensures { (e : Edition) → item_in pool.now notice.now result ≡ binary_of e (Binary.Compare (equality_by negated)) (item_in pool.now notice.now s) (item_in pool.now notice.now t) }
{
    match paired(s, t) {
        None => decided(Truth::Bottom), // a missing value is neither equal nor different
        Some((v, w)) => decided(values::equality(pool, notice, negated, v, w)),
    }
}

// Ops 34..37.
pub fn ordered(op: Order, s: Slot, t: Slot) -> Slot
    ensures { (e : Edition) → (p : List ℕ) → (q : List ℕ) → item_in p q result ≡ binary_of e (Binary.Compare (Compare.Order op)) (item_in p q s) (item_in p q t) }
{
    match paired(s, t) {
        None => decided(Truth::Bottom),
        Some((v, w)) => decided(values::ordered(op, v, w)),
    }
}

// Ops 41..43, a function for each.
pub fn and(s: Slot, t: Slot) -> Slot
    ensures { (e : Edition) → (p : List ℕ) → (q : List ℕ) → item_in p q result ≡ binary_of e (Binary.Connect Connective.And) (item_in p q s) (item_in p q t) }
{
    decided(truth::and(truth_in(s), truth_in(t)))
}

pub fn xor(s: Slot, t: Slot) -> Slot
    ensures { (e : Edition) → (p : List ℕ) → (q : List ℕ) → item_in p q result ≡ binary_of e (Binary.Connect Connective.Xor) (item_in p q s) (item_in p q t) }
{
    decided(truth::xor(truth_in(s), truth_in(t)))
}

pub fn or(s: Slot, t: Slot) -> Slot
    ensures { (e : Edition) → (p : List ℕ) → (q : List ℕ) → item_in p q result ≡ binary_of e (Binary.Connect Connective.Or) (item_in p q s) (item_in p q t) }
{
    decided(truth::or(truth_in(s), truth_in(t)))
}

// Ops 56..61, one later operand after the other: what is known before any of them ..
pub fn start(op: Many, first: Slot) -> Truth
    ensures { (p : List ℕ) → (q : List ℕ) → result ≡ start_of op (item_in p q first) }
{
    match op {
        Many::Fit(_) => values::start_fit(value_in(first)),
        Many::Equals => Truth::False,
    }
}

// .. and with one more.
pub fn more(pool: &[u8], notice: &[u8], op: Many, first: Slot, known: Truth, later: Slot) -> Truth
    ensures { result ≡ more_of op (item_in pool.now notice.now first) known (item_in pool.now notice.now later) }
{
    join(
        op,
        known,
        beside(pool, notice, op, value_in(first), value_in(later)),
    )
}

// Whether a later operand can still change what is known: bottom of strings stays, and so does an equal value.
pub fn is_open(op: Many, known: Truth) -> bool
    ensures { result ≡ open_of op known }
{
    match op {
        Many::Fit(_) => known != Truth::Bottom,
        Many::Equals => known != Truth::True,
    }
}

// The first operand beside a later one.
fn beside(pool: &[u8], notice: &[u8], op: Many, v: Typed, w: Typed) -> Truth
    ensures { result ≡ beside_of op (typed_of pool.now notice.now v) (typed_of pool.now notice.now w) }
{
    match op {
        Many::Fit(f) => values::fit(pool, notice, f, v, w),
        Many::Equals => values::equals(pool, notice, v, w),
    }
}

fn join(op: Many, s: Truth, t: Truth) -> Truth
    ensures { result ≡ join_of op s t }
{
    match op {
        Many::Fit(_) => values::strict_or(s, t),
        Many::Equals => truth::or(s, t),
    }
}

// Ops 1..5, a function for each, for the same reason. "1 int32, 2 int64, 3 real64 (b: two's complement or bits, ..)"
pub fn load_int32(b: u64) -> Slot
    ensures { (p : List ℕ) → (q : List ℕ) → (a : ℕ) → item_in p q result ≡ load_of p q Load.Int32 a b }
{
    valued(Typed::Int32(((b % 0x1_0000_0000) as u32).cast_signed()))
}

pub fn load_int64(b: u64) -> Slot
    ensures { (p : List ℕ) → (q : List ℕ) → (a : ℕ) → item_in p q result ≡ load_of p q Load.Int64 a b }
{
    valued(Typed::Int64(b.cast_signed()))
}

pub fn load_real64(b: u64) -> Slot
    ensures { (p : List ℕ) → (q : List ℕ) → (a : ℕ) → item_in p q result ≡ load_of p q Load.Real64 a b }
{
    valued(Typed::Real(number::real_of_bits(b)))
}

// "4 string, 5 name (a length, b pool offset ..)"
pub fn load_text(a: u16, b: u64) -> Slot
    ensures { (p : List ℕ) → (q : List ℕ) → item_in p q result ≡ load_of p q Load.Text a b }
{
    valued(Typed::Text(in_pool(a, b)))
}

// A name in two steps, so that a run looks for bottom only where no field has the name. Where its field's value lies: it asks for a notice found well-formed and the starts of its fields, and that the name lies in the pool, as the table check has found.
pub fn find_name(
    pool: &[u8],
    notice: &[u8],
    starts: &[u16; 64],
    a: u16,
    b: u64,
) -> Option<FoundField>
    requires { (noticeCheck notice.now ≡ Ok tt) × Indexed notice.now starts.now × (b % 65536 + a ≤ length pool.now) }
    ensures { result ≡ lookup_of notice.now (in_pool pool.now a b) }
{
    let start = (b % 65536) as usize;
    let end = start + a as usize;
    notice::lookup_in(notice, starts, &pool[start..end])
}

// "5 the field's or bottom": the value of a field that was found. It asks that the value has its kind's size and lies in the notice.
pub fn field(notice: &[u8], kind: u16, start: u16, len: u16) -> Slot
    requires { (size_right kind len ≡ true) × (start + len ≤ length notice.now) }
    ensures { (p : List ℕ) → item_in p notice.now result ≡ value (field_value kind (take len (drop start notice.now))) }
{
    valued(fields::field_value(notice, kind, start, len))
}

// .. and that of a missing name.
pub fn missing() -> Slot
    ensures { (p : List ℕ) → (q : List ℕ) → item_in p q result ≡ value bottom }
{
    valued(Typed::Bottom)
}

// "a length, b pool offset"
fn in_pool(a: u16, b: u64) -> Piece
    ensures { result ≡ pooled a b }
{
    Piece {
        origin: Origin::Pool,
        start: (b % 65536) as u16,
        len: a,
        folded: false,
    }
}
