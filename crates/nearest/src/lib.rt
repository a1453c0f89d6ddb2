// The nearest f64 of an integer: of an int64, and of a sum, a difference, a product or a quotient of two past 64 bits. Document 02, request 6.
#![tactic(auto)]

ghost use Rattle.std.specs.Prelude.{◌≡◌, pos};
ghost use Rattle.nearest.specs.Nearest.{nearest_real};

// "the integer is rounded to the nearest f64, ties to even". Up to 2^53 it is a real.
pub fn integer_real(z: i64) -> f64
    ensures { result ≡ nearest_real z }
{
    if -9007199254740993 < z && z < 9007199254740993 {
        return z as f64;
    }
    std::num::nearest_i64_to_f64(z)
}

// Below 2^106 a number is two parts of 53 digits, both of them reals, and only their sum rounds. From 2^106 on the last 32 digits decide
// nothing but a tie, so that one digit, 0 where they are all 0, stands for them: two parts of 53 digits again.
fn magnitude_real(n: u128) -> f64
    ensures { result ≡ nearest_real (pos n) }
{
    if n < 1 << 106 {
        let a = (n >> 53) as u64;
        let b = (n % (1 << 53)) as u64;
        return (a as f64) * 9007199254740992.0 + (b as f64);
    }
    let a = (n >> 84) as u64;
    let b = ((n >> 32) % (1 << 52) * 2 + (n % (1 << 32)).min(1)) as u64;
    (a as f64) * 19342813113834066795298816.0 + (b as f64) * 2147483648.0
}

// The same of every sum, difference, product and quotient of two int64. One that is 0 is +0.
pub fn wide_real(z: i128) -> f64
    ensures { result ≡ nearest_real z }
{
    let x = magnitude_real(z.unsigned_abs());
    if z < 0 { -x } else { x }
}
