// The search of `contains`, in time proportional to value plus literal: place by place while little is compared in vain, then by the literal's borders (Knuth, Morris and Pratt).
ghost use Rattle.std.specs.Prelude.{◌≡◌, ◌&&◌, ◌↔◌, ℕ, ◌+◌, ◌-◌, ◌≤◌, ◌<◌, eqb, length, get_or, drop};
ghost use Rattle.std.specs.Int.Bits.{bit_or};
ghost use Rattle.octets.specs.Octets.{fold as fold_of, folded, begins_of, contains_of};
ghost use Rattle.octets.specs.Borders.{Borders};

use crate::fold;

// The border of each start of p, that of the first k bytes at place k - 1.
// Linear: each turn raises i, and k by one at most, or lowers k.
fn set_borders(p: &[u8], p_mark: bool, out: &mut [u16])
    requires { (0 < length p.now) × (length p.now ≤ length out.old) × (length p.now ≤ 4096) }
    ensures { Borders (folded p_mark p.now) out.new (length p.now) }
{
    out[0] = 0;
    let mut k: usize = 0;
    let mut i = 1;
    while i < p.len() {
        if fold(p_mark, p[i]) == fold(p_mark, p[k]) {
            k += 1;
            out[i] = k as u16;
            i += 1;
            continue;
        }
        if k == 0 {
            out[i] = 0;
            i += 1;
            continue;
        }
        k = out[k - 1] as usize;
    }
}

// The search by borders. The first k bytes of p end at place i of s; where the next byte is another, k falls to the border of those k.
// Linear: each turn raises i, and k by one at most, or lowers k.
fn follow(s: &[u8], s_mark: bool, p: &[u8], p_mark: bool, borders: &[u16]) -> bool
    requires { (0 < length p.now) × (length p.now ≤ length borders.now) × (length p.now ≤ 4096) × Borders (folded p_mark p.now) borders.now (length p.now) }
    ensures { result ≡ contains_of (folded s_mark s.now) (folded p_mark p.now) }
{
    let mut k: usize = 0;
    let mut i = 0;
    while i < s.len() {
        if fold(s_mark, s[i]) == fold(p_mark, p[k]) {
            k += 1;
            if k == p.len() {
                return true;
            }
            i += 1;
            continue;
        }
        if k == 0 {
            i += 1;
            continue;
        }
        k = borders[k - 1] as usize;
    }
    false
}

// The borders in an array of N. A short literal does not pay for the setting of a long one.
fn by_borders_in<const N: usize>(s: &[u8], s_mark: bool, p: &[u8], p_mark: bool) -> bool
    requires { (0 < length p.now) × (length p.now ≤ N) × (N ≤ 4096) }
    ensures { result ≡ contains_of (folded s_mark s.now) (folded p_mark p.now) }
{
    let mut borders = [0u16; N];
    set_borders(p, p_mark, &mut borders);
    follow(s, s_mark, p, p_mark, &borders)
}

fn by_borders(s: &[u8], s_mark: bool, p: &[u8], p_mark: bool) -> bool
    requires { (0 < length p.now) × (length p.now ≤ 4096) }
    ensures { result ≡ contains_of (folded s_mark s.now) (folded p_mark p.now) }
{
    if p.len() <= 64 {
        return by_borders_in::<64>(s, s_mark, p, p_mark);
    }
    by_borders_in::<4096>(s, s_mark, p, p_mark)
}

// How many bytes of p, from its first on, agree with s from a place on. The first is known to.
fn agreed(s: &[u8], s_mark: bool, at: usize, p: &[u8], p_mark: bool) -> usize
    requires { (0 < length p.now) × (at + length p.now ≤ length s.now) × (fold_of s_mark (get_or s.now at 0) ≡ fold_of p_mark (get_or p.now 0 0)) }
    ensures { eqb result (length p.now) ≡ begins_of (folded s_mark (drop at s.now)) (folded p_mark p.now) }
{
    for j in 1..p.len() {
        if fold(s_mark, s[at + j]) != fold(p_mark, p[j]) {
            return j;
        }
    }
    p.len()
}

// The bit in which a..z differ from A..Z if b is a letter and the side is folded, else 0: the bytes that are b with this bit are those that fold to b.
fn case_bit(mark: bool, b: u8) -> u8
    ensures { (c : ℕ) → c < 256 → (bit_or c result ≡ b) ↔ (fold_of «mark» c ≡ b) }
{
    let low = b | 32;
    if mark & (97 <= low) & (low <= 122) {
        32
    } else {
        0
    }
}

// Place by place, on a credit of bytes that agree in vain. Once it is spent, the rest of s is searched by borders.
// A literal of more than 4,096 bytes, the most of a pool, is searched place by place to the end. The last call has parts made anew, so that p stays out of memory.
// Without MARKED no mark counts, and the compiler leaves the folding out. With two instances `by_borders` stays a function of its own, and its arrays out of the caller's frame.
// A function of its own too: laid into the run its loops would want for registers.
#[inline(never)]
pub fn search<const MARKED: bool>(s: &[u8], s_mark: bool, p: &[u8], p_mark: bool) -> bool
    requires { (0 < length p.now) × (length p.now ≤ length s.now) }
    ensures { result ≡ contains_of (folded (MARKED && s_mark) s.now) (folded (MARKED && p_mark) p.now) }
{
    let m = MARKED & s_mark;
    let n = MARKED & p_mark;
    let first = fold(n, p[0]);
    let bit = case_bit(m, first);
    let mut credit = 64 + s.len() / 2;
    for i in 0..s.len() - p.len() + 1 {
        if (s[i] | bit) != first {
            continue;
        }
        let j = agreed(s, m, i, p, n);
        if j == p.len() {
            return true;
        }
        credit = credit.saturating_sub(j);
        if (credit == 0) & (p.len() <= 4096) {
            return by_borders(&s[i..], m, &p[0..], n);
        }
    }
    false
}
