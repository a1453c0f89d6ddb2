// Strings: fetched from the pool or the notice, and compared under their folding marks.
ghost use Rattle.std.specs.Prelude.{◌≡◌, ◌<◌, pos, length, take, drop};
ghost use Rattle.octets.specs.Octets.{same_of};
ghost use Rattle.value.specs.Value.{fit_of};
ghost use Rattle.value.specs.Held.{part_of, text_of};

use crate::{Origin, Piece};
use opcode::Fit;

// At most `len` bytes from `start` on, as far as the slice has them.
pub fn part(s: &[u8], start: usize, len: usize) -> &[u8]
    ensures { result.now ≡ take len (drop start s.now) }
{
    let rest = &s[start.min(s.len())..];
    &rest[..len.min(rest.len())]
}

// String fetch: a part of one of the two lent slices, chosen by the piece's origin (document 01 names this form).
pub fn fetch<'a>(pool: &'a [u8], notice: &'a [u8], p: Piece) -> &'a [u8]
    ensures { (result.now ≡ part_of pool.now notice.now p) × (length result.now < 65536) }
{
    let origin = p.origin;
    let start = p.start as usize;
    let len = p.len as usize;
    match origin {
        Origin::Pool => part(pool, start, len),
        Origin::Notice => part(notice, start, len),
    }
}

// How many bytes a piece has.
pub fn bytes_in(pool: &[u8], notice: &[u8], p: Piece) -> i32
    ensures { result ≡ pos (length (part_of pool.now notice.now p)) }
{
    fetch(pool, notice, p).len() as i32
}

// "string with string by bytes"
pub fn same_text(pool: &[u8], notice: &[u8], p: Piece, q: Piece) -> bool
    ensures { result ≡ same_of (text_of pool.now notice.now p) (text_of pool.now notice.now q) }
{
    let s = fetch(pool, notice, p);
    let t = fetch(pool, notice, q);
    octets::same(s, p.folded, t, q.folded)
}

// Whether a literal fits.
pub fn fits(pool: &[u8], notice: &[u8], op: Fit, p: Piece, q: Piece) -> bool
    ensures { result ≡ fit_of op (text_of pool.now notice.now p) (text_of pool.now notice.now q) }
{
    let s = fetch(pool, notice, p);
    let t = fetch(pool, notice, q);
    match op {
        Fit::BeginsWith => octets::begins(s, p.folded, t, q.folded),
        Fit::Contains => octets::contains(s, p.folded, t, q.folded),
        Fit::EndsWith => octets::ends(s, p.folded, t, q.folded),
        Fit::Wildcard => pattern::wildcard::fits(s, p.folded, t, q.folded),
        Fit::Regex => regexp::fits(s, p.folded, t, q.folded),
    }
}
