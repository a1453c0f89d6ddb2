// Numbers in decimal, and bytes put one after the other: each function stores its bytes from `at` on and answers the place after them. It asks for room, which its caller has tested once for all.
#![tactic(auto)]

ghost use Rattle.std.specs.Prelude.{◌≡◌, ◌∷◌, [], ◌+◌, ◌≤◌, ◌<◌, length};
ghost use Rattle.decimal.specs.Decimal.{decimal_of, Put};

pub fn put_byte(out: &mut [u8], at: usize, b: u8) -> usize
    requires { at < length out.old }
    ensures { Put out.old at (b ∷ []) out.new result }
{
    out[at] = b;
    at + 1
}

pub fn put_bytes(out: &mut [u8], at: usize, s: &[u8]) -> usize
    requires { at + length s.now ≤ length out.old }
    ensures { Put out.old at s.now out.new result }
{
    common::copy_to(out, at, s);
    at + s.len()
}

// How many digits n has.
pub fn places(n: u64) -> usize
    ensures { (result ≡ length (decimal_of n)) × (result ≤ 20) }
{
    n.checked_ilog10().unwrap_or(0) as usize + 1
}

// The digits from the last to the first. Every u64 has at most 20.
pub fn put_decimal(out: &mut [u8], at: usize, n: u64) -> usize
    requires { at + length (decimal_of n) ≤ length out.old }
    ensures { Put out.old at (decimal_of n) out.new result × (result ≤ at + 20) }
{
    let end = at + places(n);
    let mut rest = n;
    for i in (at..end).rev() {
        out[i] = b'0' + (rest % 10) as u8;
        rest /= 10;
    }
    end
}
