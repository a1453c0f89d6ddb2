// A store of tables that come and go, in one buffer that the caller lends. Document 02, request 12. The layout stands in specs/Layout.antt.
#![tactic(auto)]

ghost use Rattle.std.specs.Prelude.{◌≡◌};
ghost use Rattle.store.specs.Calls.{ended, added, found, added_of, part_of, fetched_of, Makes, Adds, Removes};

mod changes;
mod records;

use changes::{append, cut_out};
pub use records::{Records, index};
use refusal::Refusal;

// Where a table lies: the part of the store from `start` to `end`.
#[derive(Clone, Copy)]
pub struct Part {
    pub start: usize,
    pub end: usize,
}

// "make it empty": refusal 26 for the buffer's size. A refusal changes no byte.
pub fn make(store: &mut [u8]) -> Result<(), Refusal>
    ensures { Makes store.old store.new (ended result) }
{
    let n = store.len();
    if n < 8 || 65536 < n {
        return Err(Refusal::Store);
    }
    word::write_u32(store, 0, 4);
    word::write_u16(store, 4, 6);
    word::write_u16(store, 6, 0);
    Ok(())
}

// What adding answers: 26, 12, 27, 28 in this order, or "the lowest free number 0..63".
fn judge(store: &[u8], table: &[u8]) -> Result<usize, Refusal>
    ensures { added result ≡ added_of store.now table.now }
{
    let records = index(store)?;
    if !table::check(table) {
        return Err(Refusal::Table);
    }
    let Some(number) = records.first_free() else {
        return Err(Refusal::Numbers);
    };
    let end = 4 + word::read_u32(store, 0) as usize;
    if store.len() < end + (4 + table.len()) {
        return Err(Refusal::StoreRoom);
    }
    Ok(number)
}

// "add a table and get the lowest free number 0..63". A refusal changes no byte.
pub fn add(store: &mut [u8], table: &[u8]) -> Result<usize, Refusal>
    ensures { Adds store.old table.now store.new (added result) }
{
    let number = judge(store, table)?;
    append(store, number, table);
    Ok(number)
}

// "remove by number": refusals 26, 29. A refusal changes no byte.
pub fn remove(store: &mut [u8], number: usize) -> Result<(), Refusal>
    ensures { Removes store.old number store.new (ended result) }
{
    let Some(at) = index(store)?.start_of(number) else {
        return Err(Refusal::Number);
    };
    cut_out(store, number, at);
    Ok(())
}

// Where the table of a number lies: refusals 26, 29.
pub fn find(store: &[u8], number: usize) -> Result<Part, Refusal>
    ensures { found result ≡ part_of store.now number }
{
    index(store)?.part_of(number)
}

// "fetch by number as a part of the buffer"; "Refused, .. fetch an empty part".
pub fn fetch(store: &[u8], number: usize) -> &[u8]
    ensures { result.now ≡ fetched_of store.now number }
{
    match find(store, number) {
        Ok(part) => &store[part.start..part.end],
        Err(_) => &[],
    }
}
