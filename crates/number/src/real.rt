// Reals: the value of a real literal, the bits of a real, and f64's own operators.
// Document 01, "Tokens" ("Reals"), "Notice" ("real64 (8, bits)"), "Meaning".
ghost use Rattle.std.specs.Prelude.{◌≡◌, ◌<◌, from_bits, is_nan, to_bits};
ghost use Rattle.std.specs.Float.{binary64};
ghost use Rattle.number.specs.Real.{ten_to, scaled_of, decimal_of};
ghost use Rattle.number.specs.Number.{real_arithmetic};

use crate::Number;
use opcode::Arithmetic;

// The powers of ten up to 10^22, which f64 holds exactly.
const POWERS: [f64; 23] = [
    1.0,
    10.0,
    100.0,
    1000.0,
    10000.0,
    100000.0,
    1000000.0,
    10000000.0,
    100000000.0,
    1000000000.0,
    10000000000.0,
    100000000000.0,
    1000000000000.0,
    10000000000000.0,
    100000000000000.0,
    1000000000000000.0,
    10000000000000000.0,
    100000000000000000.0,
    1000000000000000000.0,
    10000000000000000000.0,
    100000000000000000000.0,
    1000000000000000000000.0,
    10000000000000000000000.0,
];

fn ten_to(e: usize) -> f64
    requires { e < 23 }
    ensures { result ≡ ten_to e }
{
    POWERS[e]
}

// One rounded operation on a whole number below 10^15 and a table power up to 10^22 (document 01 names this form). `down`: E is below 0.
fn scaled(digits: u64, exponent: usize, down: bool) -> f64
    requires { (digits < 1000000000000000) × (exponent < 23) }
    ensures { result ≡ scaled_of digits exponent down }
{
    let d = digits as f64;
    let p = ten_to(exponent);
    if down {
        return d / p;
    }
    d * p
}

// The value of the real literal with the whole number `digits`, the exponent E in size, whether E is below 0, and the sign.
// Outside the limits, where no literal is, it is NaN.
pub fn decimal(digits: u64, exponent: u64, down: bool, negative: bool) -> f64
    ensures { result ≡ decimal_of digits exponent down negative }
{
    if 999_999_999_999_999 < digits || 22 < exponent {
        return f64::NAN;
    }
    let x = scaled(digits, exponent as usize, down);
    if negative { -x } else { x }
}

pub fn is_nan(x: f64) -> bool
    ensures { result ≡ is_nan x }
{
    x.is_nan()
}

// The real of a pattern of 64 bits; "All NaNs count as one value."
pub fn real_of_bits(n: u64) -> f64
    ensures { result ≡ from_bits binary64 n }
{
    std::num::f64_from_bits_with_nan(n)
}

// The pattern of a real; NaN has the one pattern 0x7ff8000000000000.
pub fn bits_of_real(x: f64) -> u64
    ensures { result ≡ to_bits binary64 x }
{
    std::num::f64_to_bits_with_nan(x)
}

// "Real with real is f64's own `+ - * /`"; "`%` with a real" is bottom.
pub(crate) fn real_arithmetic(op: Arithmetic, x: f64, y: f64) -> Number
    ensures { result ≡ real_arithmetic op x y }
{
    match op {
        Arithmetic::Mul => Number::Real(x * y),
        Arithmetic::Div => Number::Real(x / y),
        Arithmetic::Rem => Number::None,
        Arithmetic::Add => Number::Real(x + y),
        Arithmetic::Sub => Number::Real(x - y),
    }
}
