// Comparison of two integers, of two reals, and of an integer with a real by exact value. Document 02, request 6.
#![tactic(auto)]

ghost use Rattle.std.specs.Prelude.{◌≡◌, Bool, Float};
ghost use Rattle.std.specs.Float.Ieee.{lt, le, eq};
ghost use Rattle.mixed.specs.Mixed.{exactly, order_real, Same, same_equal, same_order};

use opcode::Order;

// A number as the real that it is exactly, with the comparisons of its own type.
pub trait Exact: Copy {
    ghost exact: { Self → Float };

    fn is(self, other: Self) -> bool
        ensures { result ≡ eq (exact self) (exact other) };

    fn below(self, other: Self) -> bool
        ensures { result ≡ lt (exact self) (exact other) };

    fn at_most(self, other: Self) -> bool
        ensures { result ≡ le (exact self) (exact other) };
}

impl Exact for i64 {
    ghost exact = { exactly };

    fn is(self, other: i64) -> bool {
        self == other
    }

    fn below(self, other: i64) -> bool {
        self < other
    }

    fn at_most(self, other: i64) -> bool {
        self <= other
    }
}

impl Exact for f64 {
    ghost exact = { λ x. x };

    fn is(self, other: f64) -> bool {
        self == other
    }

    fn below(self, other: f64) -> bool {
        self < other
    }

    fn at_most(self, other: f64) -> bool {
        self <= other
    }
}

// A comparison of two numbers of one type. It says the same of numbers that compare alike.
pub trait Comparison: Copy {
    ghost says: { Self → Float → Float → Bool };

    fn holds<T: Exact>(self, a: T, b: T) -> bool
        ensures { result ≡ says self (T.exact a) (T.exact b) };

    ghost alike: { (c : Self) (u v x y : Float) → Same u v x y → says c u v ≡ says c x y };
}

// `==`
#[derive(Clone, Copy)]
pub struct Equal;

impl Comparison for Equal {
    ghost says = { λ c. eq };

    fn holds<T: Exact>(self, a: T, b: T) -> bool {
        a.is(b)
    }

    ghost alike = { same_equal };
}

// `< <= > >=`
impl Comparison for Order {
    ghost says = { order_real };

    fn holds<T: Exact>(self, a: T, b: T) -> bool {
        match self {
            Order::Less => a.below(b),
            Order::LessEqual => a.at_most(b),
            Order::Greater => b.below(a),
            Order::GreaterEqual => b.at_most(a),
        }
    }

    ghost alike = { same_order };
}

// Two reals that compare as an integer and a real do.
#[derive(Drop)]
struct Reals {
    left: f64,
    right: f64,
}

// Up to 2^53 the integer is a real. Beyond, the multiple of 2^32 at or below it is taken from both: what is left of the integer is a real below 2^32, and what is left of the real may be rounded. Every real from 2^53 on is whole, so that
// integer and real are the same or at least one apart, and no rounding passes a whole number up to 2^53. An infinity and NaN stay what they are.
fn sides(z: i64, x: f64) -> Reals
    ensures { Same result.left result.right (exactly z) x }
{
    if -9007199254740993 < z && z < 9007199254740993 {
        return Reals {
            left: z as f64,
            right: x,
        };
    }
    Reals {
        left: (z & 0xffff_ffff) as f64,
        right: x - ((z >> 32) as f64) * 4294967296.0,
    }
}

// An integer beside a real, on either side: "compared by exact value".
pub fn with_real<C: Comparison>(c: C, z: i64, x: f64) -> bool
    ensures { result ≡ C.says c (exactly z) x }
{
    let s = sides(z, x);
    c.holds(s.left, s.right)
}

pub fn with_integer<C: Comparison>(c: C, x: f64, z: i64) -> bool
    ensures { result ≡ C.says c x (exactly z) }
{
    let s = sides(z, x);
    c.holds(s.right, s.left)
}
