// Numbers: int32, int64 and real64, with the operators of document 01, "Meaning".
#![tactic(auto)]

ghost use Rattle.std.specs.Prelude.{◌≡◌, ◌<◌, ◌≤◌};
ghost use Rattle.number.specs.Number.{is_zero, integer_in, real_in, divides, arithmetic_of, bitwise_of, complement_of, count_of, remainder_of, count_in, shift_of, compared_by, equal_of, order_of};

mod bits;
mod integer;
mod real;

use mixed::{Comparison, Equal};
use opcode::{Arithmetic, Bitwise, Edition, Order, Shift};
pub use real::{bits_of_real, decimal, is_nan, real_of_bits};
use truth::Truth;

// `None` is no number: bottom. The variants stand as those of a typed value do, so that a value becomes a number without a jump.
#[derive(Clone, Copy)]
pub enum Number {
    None,
    Int32(i32),
    Int64(i64),
    Real(f64),
}

// The integer that a number is.
fn integer_of(a: Number) -> Option<i64>
    ensures { result ≡ integer_in a }
{
    match a {
        Number::Int32(x) => Some(x as i64),
        Number::Int64(x) => Some(x),
        Number::Real(_) | Number::None => None,
    }
}

// The real that a number is in arithmetic. Document 02, request 6: "In arithmetic with a real the integer is rounded to the nearest f64, ties to even." An int32 is a real.
fn real_of(a: Number) -> Option<f64>
    ensures { result ≡ real_in a }
{
    match a {
        Number::Int32(z) => Some(z as f64),
        Number::Int64(z) => Some(nearest::integer_real(z)),
        Number::Real(x) => Some(x),
        Number::None => None,
    }
}

// The operators of which "a zero divisor, whole or real, gives bottom".
fn divides(op: Arithmetic) -> bool
    ensures { result ≡ divides op }
{
    matches!(op, Arithmetic::Div | Arithmetic::Rem)
}

fn is_zero(b: Number) -> bool
    ensures { result ≡ is_zero b }
{
    match b {
        Number::Int32(x) => x == 0,
        Number::Int64(x) => x == 0,
        Number::Real(x) => x == 0.0,
        Number::None => false,
    }
}

// `+ - * / %`, by the kinds of both sides, two int32 first: they are the common case.
pub fn arithmetic(op: Arithmetic, a: Number, b: Number) -> Number
    ensures { result ≡ arithmetic_of op a b }
{
    if let (Number::Int32(x), Number::Int32(y)) = (a, b) {
        return integer::arithmetic_i32(op, x, y);
    }
    if let (Some(x), Some(y)) = (integer_of(a), integer_of(b)) {
        return integer::arithmetic_i64(op, x, y);
    }
    if divides(op) && is_zero(b) {
        return Number::None;
    }
    if let (Some(x), Some(y)) = (real_of(a), real_of(b)) {
        return real::real_arithmetic(op, x, y);
    }
    Number::None
}

// `& ^ |`
pub fn bitwise(op: Bitwise, a: Number, b: Number) -> Number
    ensures { result ≡ bitwise_of op a b }
{
    if let (Number::Int32(x), Number::Int32(y)) = (a, b) {
        return Number::Int32(bits::bitwise_i32(op, x, y));
    }
    if let (Some(x), Some(y)) = (integer_of(a), integer_of(b)) {
        return Number::Int64(bits::bitwise_i64(op, x, y));
    }
    Number::None
}

// `~`
pub fn complement(a: Number) -> Number
    ensures { result ≡ complement_of a }
{
    match a {
        Number::Int32(x) => Number::Int32(!x),
        Number::Int64(x) => Number::Int64(!x),
        Number::Real(_) | Number::None => Number::None,
    }
}

// "the count must be 0 to width less 1"
fn places(width: u64, b: Number) -> Option<u64>
    ensures { result ≡ count_of width b }
{
    match u64::try_from(integer_of(b)?) {
        Ok(k) if k < width => Some(k),
        _ => None,
    }
}

// Request 9: "the count's remainder by the width, 0 to width less 1".
fn remainder_places(width: u64, b: Number) -> Option<u64>
    requires { (0 < width) × (width ≤ 64) }
    ensures { result ≡ remainder_of width b }
{
    let z = integer_of(b)?;
    Some(z.rem_euclid(width as i64) as u64)
}

// The places of a shift in an edition.
fn places_in(edition: Edition, width: u64, b: Number) -> Option<u64>
    requires { (0 < width) × (width ≤ 64) }
    ensures { result ≡ count_in edition width b }
{
    match edition {
        Edition::First => places(width, b),
        Edition::Second => remainder_places(width, b),
    }
}

// `<< >> >>>`
pub fn shift(edition: Edition, op: Shift, a: Number, b: Number) -> Number
    ensures { result ≡ shift_of edition op a b }
{
    match a {
        Number::Int32(x) => match places_in(edition, 32, b) {
            Some(k) => Number::Int32(bits::shift_i32(op, x, k)),
            None => Number::None,
        },
        Number::Int64(x) => match places_in(edition, 64, b) {
            Some(k) => Number::Int64(bits::shift_i64(op, x, k)),
            None => Number::None,
        },
        Number::Real(_) | Number::None => Number::None,
    }
}

// A comparison by the kinds of both sides: two integers as integers, two reals as reals, an integer and a real by exact value. An int32 is a real.
fn compare<C: Comparison>(c: C, a: Number, b: Number) -> Truth
    ensures { result ≡ compared_by (C.says c) a b }
{
    match (a, b) {
        (Number::Int32(x), Number::Int32(y)) => Truth::from(c.holds(x as i64, y as i64)),
        (Number::Int32(x), Number::Int64(y)) => Truth::from(c.holds(x as i64, y)),
        (Number::Int32(x), Number::Real(y)) => Truth::from(c.holds(x as f64, y)),
        (Number::Int64(x), Number::Int32(y)) => Truth::from(c.holds(x, y as i64)),
        (Number::Int64(x), Number::Int64(y)) => Truth::from(c.holds(x, y)),
        (Number::Int64(x), Number::Real(y)) => Truth::from(mixed::with_real(c, x, y)),
        (Number::Real(x), Number::Int32(y)) => Truth::from(c.holds(x, y as f64)),
        (Number::Real(x), Number::Int64(y)) => Truth::from(mixed::with_integer(c, x, y)),
        (Number::Real(x), Number::Real(y)) => Truth::from(c.holds(x, y)),
        (Number::None, _) | (_, Number::None) => Truth::Bottom,
    }
}

// `==`, two int32 first: they are the common case, and need one test of both kinds.
pub fn equal(a: Number, b: Number) -> Truth
    ensures { result ≡ equal_of a b }
{
    if let (Number::Int32(x), Number::Int32(y)) = (a, b) {
        return equal_int32(x, y);
    }
    compare(Equal, a, b)
}

// The same of two int32, for a caller that has matched them.
pub fn equal_int32(x: i32, y: i32) -> Truth
    ensures { result ≡ equal_of (Number.Int32 x) (Number.Int32 y) }
{
    Truth::from(Equal.holds(x as i64, y as i64))
}

// `< <= > >=`, likewise.
pub fn order(op: Order, a: Number, b: Number) -> Truth
    ensures { result ≡ order_of op a b }
{
    if let (Number::Int32(x), Number::Int32(y)) = (a, b) {
        return Truth::from(op.holds(x as i64, y as i64));
    }
    compare(op, a, b)
}
