// Notices: layout, lookup by name, reading and writing. Document 01, "Notice".
#![tactic(auto)]

ghost use Rattle.std.specs.Prelude.{◌≡◌, ◌≤◌, true, [], length, IfOk};
ghost use Rattle.std.proofs.lemmas.List.Edits.{sets};
ghost use Rattle.notice.specs.Layout.{header_right, count_of, check_from, check_of, fields_of, right_at, stood_from, stood_of, Indexed};
ghost use Rattle.notice.specs.Lookup.{found_at, lookup_of};
ghost use Rattle.notice.specs.Search.{find_answer, find_of, found_index, index_of};

mod field;
mod name;
mod order;
mod reading;
mod search;
mod writing;

use field::value_at;
pub use field::{field_size, name_at, name_size, next_at, size_right, stands};
pub use name::name_right;
use order::{follows, key_at};
pub use reading::{kind_of, locate, name_of, part, read, value_of};
use refusal::Refusal;
use search::{halved, search, sought, walked};
pub use writing::write;

// A field that was found: its kind, and where its value lies.
#[derive(Clone, Copy)]
pub struct FoundField {
    pub kind: u16,
    pub start: u16,
    pub len: u16,
}

// What finding a name answers: the field's index, and how many names were looked at.
#[derive(Clone, Copy)]
pub struct Sought {
    pub index: Option<usize>,
    pub looked: usize,
}

// Where field k lies: its name, its value after the name, and its end.
#[derive(Clone, Copy)]
pub struct Place {
    pub kind: u16,
    pub name: usize,
    pub value: usize,
    pub end: usize,
}

// What reading field k answers: its kind, and its name and value as parts of the notice.
#[derive(Clone, Copy)]
pub struct FieldParts<'a> {
    pub kind: u16,
    pub name: &'a [u8],
    pub value: &'a [u8],
}

fn header_right(notice: &[u8]) -> bool
    ensures { result ≡ header_right notice.now }
{
    let n = notice.len();
    if (n < 8) | (16384 < n) {
        return false;
    }
    let whole = 4 + word::read_u32(notice, 0) as usize == n;
    whole & ((word::read_u16(notice, 4) == 1) & (word::read_u16(notice, 6) <= 64))
}

// The fields in order, each name after the last one, and nothing after them. It leaves the start of each field that stands.
fn check_fields(notice: &[u8], starts: &mut [u16; 64]) -> Result<(), Refusal>
    requires { header_right notice.now ≡ true }
    ensures value { result ≡ check_from (count_of notice.now) [] notice.now 8 }
    ensures starts_after { starts.new ≡ sets starts.old 0 (stood_from (count_of notice.now) [] notice.now 8) }
{
    let n = word::read_u16(notice, 6) as usize;
    let mut at = 8;
    let mut last = 0;
    let mut last_key: u64 = 0;
    for i in 0..n {
        let key = key_at(notice, at);
        if !follows(notice, last, last_key, at, key) {
            return Err(Refusal::Notice(at));
        }
        last = at;
        last_key = key;
        starts[i] = at as u16;
        at = next_at(notice, at);
    }
    if at == notice.len() {
        Ok(())
    } else {
        Err(Refusal::Notice(at))
    }
}

// Whether a slice is a notice, and the place of the first fault if it is none; with the starts of its fields, up to the first fault.
pub fn index(notice: &[u8], starts: &mut [u16; 64]) -> Result<(), Refusal>
    ensures value { result ≡ check_of notice.now }
    ensures starts_after { starts.new ≡ sets starts.old 0 (stood_of notice.now) }
{
    if header_right(notice) {
        return check_fields(notice, starts);
    }
    Err(Refusal::Notice(0))
}

// The same for a caller who needs no starts.
pub fn check(notice: &[u8]) -> Result<(), Refusal>
    ensures { result ≡ check_of notice.now }
{
    let mut starts: [u16; 64] = [0; 64];
    index(notice, &mut starts)
}

// Where a field's kind and value lie.
fn found_at(notice: &[u8], at: usize) -> FoundField
    requires { (length notice.now ≤ 16384) × (right_at notice.now at ≡ true) }
    ensures { result ≡ found_at notice.now at }
{
    let value = value_at(notice, at);
    FoundField {
        kind: word::read_u16(notice, at + 2),
        start: value as u16,
        len: (next_at(notice, at) - value) as u16,
    }
}

// The field of a name: "5 the field's or bottom". It asks for a notice found well-formed, in which the search may stop; it finds what a walk over all fields finds.
pub fn lookup(notice: &[u8], name: &[u8]) -> Option<FoundField>
    requires { check_of notice.now ≡ Ok tt }
    ensures { result ≡ lookup_of notice.now name.now }
{
    match search(notice, name).found {
        Some(at) => Some(found_at(notice, at)),
        None => None,
    }
}

// The same for a caller who has the starts of its fields, by halving.
pub fn lookup_in(notice: &[u8], starts: &[u16; 64], name: &[u8]) -> Option<FoundField>
    requires { (check_of notice.now ≡ Ok tt) × Indexed notice.now starts.now }
    ensures { result ≡ lookup_of notice.now name.now }
{
    match halved(notice, starts, name).found {
        Some(at) => Some(found_at(notice, at)),
        None => None,
    }
}

// The same for such a caller outside the run, in order: a second caller of `lookup_in` would make it a call in the run's loop.
pub fn lookup_along(notice: &[u8], starts: &[u16; 64], name: &[u8]) -> Option<FoundField>
    requires { (check_of notice.now ≡ Ok tt) × Indexed notice.now starts.now }
    ensures { result ≡ lookup_of notice.now name.now }
{
    match walked(notice, starts, name).found {
        Some(at) => Some(found_at(notice, at)),
        None => None,
    }
}

// The index of a name's field and the names looked at, for any bytes: 11 with its place if they are no notice. The index is that which a walk over all fields finds, and none if it finds none.
pub fn find(notice: &[u8], name: &[u8]) -> Result<Sought, Refusal>
    ensures answer { find_answer result ≡ find_of notice.now name.now }
    ensures index { IfOk result (λ f. found_index f.index ≡ index_of name.now (fields_of notice.now)) }
{
    check(notice)?;
    Ok(sought(notice, name))
}
