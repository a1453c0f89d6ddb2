// Exact arithmetic on integers. Document 01, "Meaning": "`+ - * /` on integers is exact; `/` cuts toward zero.", "`%` .. has the sign of the left side".
// Two int32 have their result in 64 bits, and two int64 theirs in 128. Signed quotient and remainder are those of the operands' own width, exact at both ends of the range (document 01 names this form): only a quotient by -1 can leave it.
ghost use Rattle.std.specs.Prelude.{◌≡◌, true, false};
ghost use Rattle.number.specs.Number.{typed, arithmetic_of};

use crate::Number;
use opcode::Arithmetic;

// An operator on two int32. "A zero divisor, whole or real, gives bottom."
pub(crate) fn arithmetic_i32(op: Arithmetic, a: i32, b: i32) -> Number
    ensures { result ≡ arithmetic_of op (Number.Int32 a) (Number.Int32 b) }
{
    let x = a as i64;
    let y = b as i64;
    match op {
        Arithmetic::Mul => narrow(x * y),
        Arithmetic::Div => match b {
            0 => Number::None,
            -1 => narrow(-x),
            _ => Number::Int32(a / b),
        },
        Arithmetic::Rem => match b {
            0 => Number::None,
            _ => Number::Int32(a.wrapping_rem(b)),
        },
        Arithmetic::Add => narrow(x + y),
        Arithmetic::Sub => narrow(x - y),
    }
}

// An operator on two int64, likewise.
pub(crate) fn arithmetic_i64(op: Arithmetic, a: i64, b: i64) -> Number
    ensures { result ≡ arithmetic_of op (Number.Int64 a) (Number.Int64 b) }
{
    let x = a as i128;
    let y = b as i128;
    match op {
        Arithmetic::Mul => wide(x * y),
        Arithmetic::Div => match b {
            0 => Number::None,
            -1 => wide(-x),
            _ => Number::Int64(a / b),
        },
        Arithmetic::Rem => match b {
            0 => Number::None,
            _ => Number::Int64(a.wrapping_rem(b)),
        },
        Arithmetic::Add => wide(x + y),
        Arithmetic::Sub => wide(x - y),
    }
}

// The result of two int32 as an int32 where it fits.
fn narrow(z: i64) -> Number
    ensures { result ≡ typed true z }
{
    match i32::try_from(z) {
        Ok(x) => Number::Int32(x),
        Err(_) => Number::Int64(z),
    }
}

// The result of two int64 as an int64 where it fits, and else the nearest real.
fn wide(z: i128) -> Number
    ensures { result ≡ typed false z }
{
    match i64::try_from(z) {
        Ok(x) => Number::Int64(x),
        Err(_) => Number::Real(nearest::wide_real(z)),
    }
}
