// Reading field k: its kind, and its name and value as parts of the notice.
ghost use Rattle.std.specs.Prelude.{◌≡◌, ◌<◌, [], length, slice_index, MatchResult};
ghost use Rattle.refusal.specs.Refusal.{number_of, place_of};
ghost use Rattle.notice.specs.Layout.{starts_of};
ghost use Rattle.notice.specs.Read.{part_of, place_answer, read_field, Located, ReadIs};

use crate::field::{next_at, value_at};
use crate::{FieldParts, Place, check};
use refusal::Refusal;

// The start of field k.
fn field_start(notice: &[u8], k: usize) -> usize
    requires { k < length (starts_of notice.now) }
    ensures { result ≡ slice_index (starts_of notice.now) k }
{
    let mut at = 8;
    for _ in 0..k {
        at = next_at(notice, at);
    }
    at
}

// Where field k lies, or the refusal.
pub fn locate(notice: &[u8], k: usize) -> Result<Place, Refusal>
    ensures { Located notice.now k (place_answer result) }
{
    check(notice)?;
    if word::read_u16(notice, 6) as usize <= k {
        return Err(Refusal::Index);
    }
    let at = field_start(notice, k);
    Ok(Place {
        kind: word::read_u16(notice, at + 2),
        name: at + 5,
        value: value_at(notice, at),
        end: next_at(notice, at),
    })
}

// The bytes from `a` to `e`, or none where they do not lie within the slice.
pub fn part<'a>(s: &'a [u8], a: usize, e: usize) -> &'a [u8]
    ensures { result.now ≡ part_of s.now a e }
{
    if a <= e {
        if e <= s.len() {
            return &s[a..e];
        }
    }
    &s[0..0]
}

// The parts of field k, each by itself: kind 0 and empty parts if reading is refused.
pub fn kind_of(notice: &[u8], k: usize) -> u16
    ensures { result ≡ (read_field notice.now k).kind }
{
    match locate(notice, k) {
        Ok(p) => p.kind,
        Err(_) => 0,
    }
}

pub fn name_of<'a>(notice: &'a [u8], k: usize) -> &'a [u8]
    ensures { result.now ≡ (read_field notice.now k).name }
{
    match locate(notice, k) {
        Ok(p) => part(notice, p.name, p.value),
        Err(_) => &notice[0..0],
    }
}

pub fn value_of<'a>(notice: &'a [u8], k: usize) -> &'a [u8]
    ensures { result.now ≡ (read_field notice.now k).value }
{
    match locate(notice, k) {
        Ok(p) => part(notice, p.value, p.end),
        Err(_) => &notice[0..0],
    }
}

pub fn read<'a>(notice: &'a [u8], k: usize) -> Result<FieldParts<'a>, Refusal>
    ensures { MatchResult result (λ p. ReadIs notice.now k 0 0 p.kind p.name.now p.value.now) (λ r. ReadIs notice.now k (number_of r) (place_of r) 0 [] []) }
{
    let p = locate(notice, k)?;
    Ok(FieldParts {
        kind: p.kind,
        name: part(notice, p.name, p.value),
        value: part(notice, p.value, p.end),
    })
}
