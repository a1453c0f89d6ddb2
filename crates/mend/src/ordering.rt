// Where the fields kept so far start, in the order of their names: the place of one more, what it is among them, and the places with it. 16 bits hold every place of a notice.
ghost use Rattle.std.specs.Prelude.{◌≡◌, true, ◌+◌, ◌-◌, ◌≤◌, ◌<◌, eqb, length, take, drop, ◌∷◌, ◌++◌};
ghost use Rattle.std.proofs.lemmas.List.Edits.{sets};
ghost use Rattle.notice.specs.Layout.{name_at, right_at};
ghost use Rattle.notice.specs.Write.{has_name, place_among};
ghost use Rattle.mend.specs.Mend.{code_among};
ghost use Rattle.mend.specs.Fate.{FateIs};
ghost use Rattle.mend.specs.Order.{fields_in, InOrder};

use crate::fate::Fate;
use crate::fields::{name_before, same_name};

// Whether a right field is kept and not moved: its name is after all others. Names that rise in the bytes as well take this comparison alone.
pub(crate) fn comes_last(bytes: &[u8], order: &[u16; 65], n: usize, at: usize) -> bool
    requires { (right_at bytes.now at ≡ true) × InOrder bytes.now order.now n }
    ensures { result ≡ eqb (code_among (fields_in bytes.now order.now n) (name_at bytes.now at)) 0 }
{
    if n == 0 {
        return true;
    }
    name_before(bytes, order[n - 1] as usize, at)
}

// The first place whose name that of the field at `at` is before, or n, by halving.
pub(crate) fn place_for(bytes: &[u8], order: &[u16; 65], n: usize, at: usize) -> usize
    requires { (right_at bytes.now at ≡ true) × InOrder bytes.now order.now n }
    ensures { result ≡ place_among (name_at bytes.now at) (fields_in bytes.now order.now n) }
{
    let mut low = 0;
    let mut high = n;
    while low < high {
        let middle = low + (high - low) / 2;
        if name_before(bytes, at, order[middle] as usize) {
            high = middle;
        } else {
            low = middle + 1;
        }
    }
    low
}

// Whether a right field's name, which has this place, is there: only the name before the place may be the same.
fn repeated(bytes: &[u8], order: &[u16; 65], n: usize, place: usize, at: usize) -> bool
    requires { (right_at bytes.now at ≡ true) × InOrder bytes.now order.now n × (place ≡ place_among (name_at bytes.now at) (fields_in bytes.now order.now n)) }
    ensures { result ≡ has_name (name_at bytes.now at) (fields_in bytes.now order.now n) }
{
    if place == 0 {
        return false;
    }
    same_name(bytes, order[place - 1] as usize, at)
}

// A right field whose name has this place: repeated, moved or kept. A greater name was kept if the place is not the last.
pub(crate) fn among(bytes: &[u8], order: &[u16; 65], n: usize, place: usize, at: usize) -> Fate
    requires { (right_at bytes.now at ≡ true) × InOrder bytes.now order.now n × (place ≡ place_among (name_at bytes.now at) (fields_in bytes.now order.now n)) }
    ensures { FateIs result (code_among (fields_in bytes.now order.now n) (name_at bytes.now at)) place }
{
    if repeated(bytes, order, n, place, at) {
        return Fate::Repeated;
    }
    if place < n {
        return Fate::Moved(place);
    }
    Fate::Kept(place)
}

// One more among the first n: the places from its own on move up by one.
pub(crate) fn put_in(order: &mut [u16; 65], n: usize, place: usize, at: usize)
    requires { (length order.old ≡ 65) × (place ≤ n) × (n < 65) × (at < 65536) }
    ensures { (length order.new ≡ 65) × (take (n + 1) order.new ≡ take place (take n order.old) ++ (at ∷ drop place (take n order.old))) }
{
    order.copy_within(place..n, place + 1);
    order[place] = at as u16;
}
