// What the operators and functions give on values.
ghost use Rattle.std.specs.Prelude.{◌≡◌, cond, ◌||◌, List, ℕ, eqb};
ghost use Rattle.truth.specs.declared.Truth.TheVariants.{False, Bottom};
ghost use Rattle.utf8.specs.Scan.{count_of};
ghost use Rattle.opcode.specs.Groups.{equality_by};
ghost use Rattle.opcode.specs.declared.Compare.{Compare};
ghost use Rattle.value.specs.Value.{number_of, value_of, type_of, is_text, fold_case_of, size_by, size_of, change_of, if_present, type_test, nan_of, test_of, combine_numbers, combine_of, equal_values, compare_of, fit_values, strict_or};
ghost use Rattle.value.specs.Held.{folded_piece, text_of, typed_of};

use crate::{Origin, Piece, Typed, texts};
use number::Number;
use opcode::{Change, Combine, Edition, Fit, Order, Test};
use truth::Truth;

// The number that a value is, and the value that a number is.
impl From<Typed> for Number {
    ghost from_gives = { λ v n. (p : List ℕ) → (q : List ℕ) → n ≡ number_of (typed_of p q v) };

    fn from(v: Typed) -> Number {
        match v {
            Typed::Bottom => Number::None,
            Typed::Int32(x) => Number::Int32(x),
            Typed::Int64(x) => Number::Int64(x),
            Typed::Real(x) => Number::Real(x),
            Typed::Text(_) | Typed::Opaque(_) => Number::None,
        }
    }
}

impl From<Number> for Typed {
    ghost from_gives = { λ n v. (p : List ℕ) → (q : List ℕ) → typed_of p q v ≡ value_of n };

    fn from(n: Number) -> Typed {
        match n {
            Number::Int32(x) => Typed::Int32(x),
            Number::Int64(x) => Typed::Int64(x),
            Number::Real(x) => Typed::Real(x),
            Number::None => Typed::Bottom,
        }
    }
}

// The type's number among the kinds of fields, 0 where it is bottom.
pub fn type_of(v: Typed) -> u8
    ensures { (p : List ℕ) → (q : List ℕ) → result ≡ type_of (typed_of p q v) }
{
    match v {
        Typed::Bottom => 0,
        Typed::Int32(_) => 1,
        Typed::Int64(_) => 2,
        Typed::Real(_) => 3,
        Typed::Text(_) => 4,
        Typed::Opaque(_) => 5,
    }
}

fn fold_piece(p: Piece) -> Piece
    ensures { result ≡ folded_piece p }
{
    let origin = p.origin;
    Piece {
        origin,
        start: p.start,
        len: p.len,
        folded: true,
    }
}

// `fold-case`: the piece with its mark set.
fn fold_case(v: Typed) -> Typed
    ensures { (p : List ℕ) → (q : List ℕ) → typed_of p q result ≡ fold_case_of (typed_of p q v) }
{
    match v {
        Typed::Text(p) => Typed::Text(fold_piece(p)),
        _ => Typed::Bottom,
    }
}

// How many characters a text has: as many as the bytes that it is read from, which its mark does not change.
fn text_size(pool: &[u8], notice: &[u8], p: Piece) -> Typed
    ensures { typed_of pool.now notice.now result ≡ size_by (count_of (text_of pool.now notice.now p)) }
{
    let s = texts::fetch(pool, notice, p);
    match utf8::count(s) {
        Some(n) => Typed::Int32(n as i32),
        None => Typed::Bottom,
    }
}

// `size`
fn size(pool: &[u8], notice: &[u8], v: Typed) -> Typed
    ensures { typed_of pool.now notice.now result ≡ size_of (typed_of pool.now notice.now v) }
{
    match v {
        Typed::Text(p) => text_size(pool, notice, p),
        Typed::Opaque(p) => Typed::Int32(texts::bytes_in(pool, notice, p)),
        _ => Typed::Bottom,
    }
}

// `fold-case size ~`
pub fn change(pool: &[u8], notice: &[u8], op: Change, v: Typed) -> Typed
    ensures { typed_of pool.now notice.now result ≡ change_of op (typed_of pool.now notice.now v) }
{
    match op {
        Change::FoldCase => fold_case(v),
        Change::Size => size(pool, notice, v),
        Change::Complement => Typed::from(number::complement(Number::from(v))),
    }
}

fn if_present(v: Typed, t: Truth) -> Truth
    ensures { (p : List ℕ) → (q : List ℕ) → result ≡ if_present (typed_of p q v) t }
{
    if type_of(v) == 0 { Truth::Bottom } else { t }
}

// "Type tests: bottom if missing."
fn type_test(number: u8, v: Typed) -> Truth
    ensures { (p : List ℕ) → (q : List ℕ) → result ≡ type_test number (typed_of p q v) }
{
    if_present(v, Truth::from(type_of(v) == number))
}

// "`nan`: false for other present values."
fn nan(v: Typed) -> Truth
    ensures { (p : List ℕ) → (q : List ℕ) → result ≡ nan_of (typed_of p q v) }
{
    match v {
        Typed::Bottom => Truth::Bottom,
        Typed::Real(x) => Truth::from(number::is_nan(x)),
        _ => Truth::False,
    }
}

// `int32 int64 real64 string opaque nan require`
pub fn test(op: Test, v: Typed) -> Truth
    ensures { (p : List ℕ) → (q : List ℕ) → result ≡ test_of op (typed_of p q v) }
{
    match op {
        Test::Int32 => type_test(1, v),
        Test::Int64 => type_test(2, v),
        Test::Real64 => type_test(3, v),
        Test::Text => type_test(4, v),
        Test::Opaque => type_test(5, v),
        Test::Nan => nan(v),
        Test::Require => if_present(v, Truth::True),
    }
}

fn combine_numbers(edition: Edition, op: Combine, a: Number, b: Number) -> Number
    ensures { result ≡ combine_numbers edition op a b }
{
    match op {
        Combine::Shift(o) => number::shift(edition, o, a, b),
        Combine::Bitwise(o) => number::bitwise(o, a, b),
        Combine::Arithmetic(o) => number::arithmetic(o, a, b),
    }
}

// "bottom in a value makes the enclosing value or comparison bottom": told first, since names are often missing and the operator then need not be looked at.
pub fn any_bottom(v: Typed, w: Typed) -> bool
    ensures { (p : List ℕ) → (q : List ℕ) → result ≡ (eqb (type_of (typed_of p q v)) 0 || eqb (type_of (typed_of p q w)) 0) }
{
    (type_of(v) == 0) | (type_of(w) == 0)
}

// `<< >> >>> & ^ | * / % + -`
pub fn combine(edition: Edition, op: Combine, v: Typed, w: Typed) -> Typed
    ensures { (p : List ℕ) → (q : List ℕ) → typed_of p q result ≡ combine_of edition op (typed_of p q v) (typed_of p q w) }
{
    Typed::from(combine_numbers(edition, op, Number::from(v), Number::from(w)))
}

// `==`: "string with string by bytes, number with number; otherwise bottom". Two int32 are told first, and compared as they stand.
fn equal(pool: &[u8], notice: &[u8], v: Typed, w: Typed) -> Truth
    ensures { result ≡ equal_values (typed_of pool.now notice.now v) (typed_of pool.now notice.now w) }
{
    if let (Typed::Int32(x), Typed::Int32(y)) = (v, w) {
        return number::equal_int32(x, y);
    }
    if let (Typed::Text(a), Typed::Text(b)) = (v, w) {
        return Truth::from(texts::same_text(pool, notice, a, b));
    }
    number::equal(Number::from(v), Number::from(w))
}

// The same for `equals`. `equality` calls `equal` at one place and nothing else does, so that the compiler lays it into the run's loop: operands that pass through memory take a quarter of a run.
pub fn equals(pool: &[u8], notice: &[u8], v: Typed, w: Typed) -> Truth
    ensures { result ≡ equal_values (typed_of pool.now notice.now v) (typed_of pool.now notice.now w) }
{
    if let (Typed::Text(a), Typed::Text(b)) = (v, w) {
        return Truth::from(texts::same_text(pool, notice, a, b));
    }
    number::equal(Number::from(v), Number::from(w))
}

// `==`, and `!=` where it is negated.
pub fn equality(pool: &[u8], notice: &[u8], negated: bool, v: Typed, w: Typed) -> Truth
    ensures { result ≡ compare_of (equality_by negated) (typed_of pool.now notice.now v) (typed_of pool.now notice.now w) }
{
    let t = equal(pool, notice, v, w);
    if negated { truth::not(t) } else { t }
}

// `< <= > >=`
pub fn ordered(op: Order, v: Typed, w: Typed) -> Truth
    ensures { (p : List ℕ) → (q : List ℕ) → result ≡ compare_of (Compare.Order op) (typed_of p q v) (typed_of p q w) }
{
    number::order(op, Number::from(v), Number::from(w))
}

// Ops 56..58, 60 and 61: what is known before any literal, and what one literal says.
pub fn start_fit(v: Typed) -> Truth
    ensures { (p : List ℕ) → (q : List ℕ) → result ≡ cond (is_text (typed_of p q v)) False Bottom }
{
    match v {
        Typed::Text(_) => Truth::False,
        _ => Truth::Bottom,
    }
}

pub fn fit(pool: &[u8], notice: &[u8], op: Fit, v: Typed, w: Typed) -> Truth
    ensures { result ≡ fit_values op (typed_of pool.now notice.now v) (typed_of pool.now notice.now w) }
{
    match (v, w) {
        (Typed::Text(a), Typed::Text(b)) => Truth::from(texts::fits(pool, notice, op, a, b)),
        _ => Truth::Bottom,
    }
}

// `||` of two that are known, else bottom.
pub fn strict_or(s: Truth, t: Truth) -> Truth
    ensures { result ≡ strict_or s t }
{
    if s == Truth::Bottom || t == Truth::Bottom {
        Truth::Bottom
    } else {
        truth::or(s, t)
    }
}
