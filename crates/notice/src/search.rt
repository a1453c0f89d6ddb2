// The search for a name. Document 02, request 11: "Names rise, so in a notice found well-formed the search for a field should stop at the first name not below the one sought".
ghost use Rattle.std.specs.Prelude.{◌≡◌, true, ◌∷◌, drop, Ok};
ghost use Rattle.notice.specs.Layout.{name_at, right_at, check_of, fields_of, Indexed};
ghost use Rattle.notice.specs.Search.{StandsTo, Stops, find_answer, found_index, index_of, sought_of};

use crate::Sought;
use crate::field::{name_at, next_at};
use std::cmp::Ordering;

// Where the search stops: how many names are below the one sought, and the start of the field that has it.
#[derive(Clone, Copy)]
pub(crate) struct Stop {
    pub below: usize,
    pub found: Option<usize>,
}

// How a field's name stands to the one sought, by all bytes.
fn compared(notice: &[u8], at: usize, name: &[u8]) -> Ordering
    requires { right_at notice.now at ≡ true }
    ensures { StandsTo (name_at notice.now at) name.now result }
{
    let own = name_at(notice, at);
    if octets::same(own, false, name, false) {
        return Ordering::Equal;
    }
    if octets::before(own, false, name, false) {
        return Ordering::Less;
    }
    Ordering::Greater
}

// By the first byte where these differ; `first` is that of the name sought.
fn stands_to(notice: &[u8], at: usize, name: &[u8], first: u8) -> Ordering
    requires { (right_at notice.now at ≡ true) × (name.now ≡ first ∷ drop 1 name.now) }
    ensures { StandsTo (name_at notice.now at) name.now result }
{
    let head = notice[at + 5];
    if head < first {
        return Ordering::Less;
    }
    if first < head {
        return Ordering::Greater;
    }
    compared(notice, at, name)
}

// The fields in order, until one's name is not below the one sought. No name is below the empty one.
pub(crate) fn search(notice: &[u8], name: &[u8]) -> Stop
    requires { check_of notice.now ≡ Ok tt }
    ensures { Stops notice.now name.now result }
{
    if name.is_empty() {
        return Stop {
            below: 0,
            found: None,
        };
    }
    let first = name[0];
    let n = word::read_u16(notice, 6) as usize;
    let mut at = 8;
    for below in 0..n {
        match stands_to(notice, at, name, first) {
            Ordering::Less => at = next_at(notice, at),
            Ordering::Equal => {
                return Stop {
                    below,
                    found: Some(at),
                };
            }
            Ordering::Greater => return Stop { below, found: None },
        }
    }
    Stop {
        below: n,
        found: None,
    }
}

// The same by halving, for a caller who has the fields' starts: the names before `low` are below the one sought, those from `high` on above it.
pub(crate) fn halved(notice: &[u8], starts: &[u16; 64], name: &[u8]) -> Stop
    requires { (check_of notice.now ≡ Ok tt) × Indexed notice.now starts.now }
    ensures { Stops notice.now name.now result }
{
    if name.is_empty() {
        return Stop {
            below: 0,
            found: None,
        };
    }
    let first = name[0];
    let mut low: usize = 0;
    let mut high = word::read_u16(notice, 6) as usize;
    while low < high {
        let mid = (low + high) / 2;
        let at = starts[mid] as usize;
        match stands_to(notice, at, name, first) {
            Ordering::Less => low = mid + 1,
            Ordering::Equal => {
                return Stop {
                    below: mid,
                    found: Some(at),
                };
            }
            Ordering::Greater => high = mid,
        }
    }
    Stop {
        below: low,
        found: None,
    }
}

// The same in order, by the starts: none of them waits for the length of the field before.
pub(crate) fn walked(notice: &[u8], starts: &[u16; 64], name: &[u8]) -> Stop
    requires { (check_of notice.now ≡ Ok tt) × Indexed notice.now starts.now }
    ensures { Stops notice.now name.now result }
{
    if name.is_empty() {
        return Stop {
            below: 0,
            found: None,
        };
    }
    let first = name[0];
    let n = word::read_u16(notice, 6) as usize;
    for (below, start) in starts[..n].iter().enumerate() {
        let at = *start as usize;
        match stands_to(notice, at, name, first) {
            Ordering::Less => {}
            Ordering::Equal => {
                return Stop {
                    below,
                    found: Some(at),
                };
            }
            Ordering::Greater => return Stop { below, found: None },
        }
    }
    Stop {
        below: n,
        found: None,
    }
}

// What finding a name in a notice answers: the names looked at are "those below the one sought, and one more if any is left".
pub(crate) fn sought(notice: &[u8], name: &[u8]) -> Sought
    requires { check_of notice.now ≡ Ok tt }
    ensures answer { find_answer (Ok result) ≡ sought_of notice.now name.now }
    ensures index { found_index result.index ≡ index_of name.now (fields_of notice.now) }
{
    let stop = search(notice, name);
    let n = word::read_u16(notice, 6) as usize;
    Sought {
        index: stop.found.and(Some(stop.below)),
        looked: n.min(stop.below + 1),
    }
}
