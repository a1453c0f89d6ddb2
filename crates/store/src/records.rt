// The records of a store: whether its bytes keep the layout, and where the record of each number starts.
ghost use Rattle.std.specs.Prelude.{◌≡◌, ◌≢◌, ◌==◌, true, false, ◌≤◌, length, slice_index, position, IfOk, IfErr, MatchOption};
ghost use Rattle.refusal.specs.declared.Refusal.TheVariants.{Store};
ghost use Rattle.word.specs.Word.{Bytes};
ghost use Rattle.store.specs.Layout.{header_right, stands_at, right_of};
ghost use Rattle.store.specs.Calls.{starts_of, found, part_of};

use crate::Part;
use refusal::Refusal;

fn header_right(store: &[u8]) -> bool
    ensures { result ≡ header_right store.now }
{
    let n = store.len();
    if n < 8 {
        return false;
    }
    let end = 4 + word::read_u32(store, 0) as usize;
    (n <= 65536) & ((end <= n) & (word::read_u16(store, 4) == 6))
}

// Whether a record of a number that has no start yet lies from `at` on, before `end`.
fn stands(store: &[u8], starts: &[u16; 64], end: usize, at: usize) -> bool
    requires { (end ≤ length store.now) × (at ≤ 65536) }
    ensures { result ≡ stands_at starts.now store.now end at }
{
    if end < at + 4 {
        return false;
    }
    let size = word::read_u16(store, at) as usize;
    let kind = word::read_u16(store, at + 2) as usize;
    if size < 2 {
        return false;
    }
    if end - at < 2 + size {
        return false;
    }
    if kind < 256 {
        return false;
    }
    if 320 <= kind {
        return false;
    }
    let number = kind - 256;
    starts[number] == 0
}

// The records of a store that keeps the layout: where the record of each number starts, 0 for none.
#[derive(Drop)]
pub struct Records<'a> {
    pub store: &'a [u8],
    pub starts: [u16; 64],
    ghost bytes: { Bytes store.now },
    ghost right: { right_of store.now ≡ true },
    ghost all: { starts ≡ starts_of store.now },
}

// The records of a store. Refusal 26 for bytes that break the layout.
pub fn index<'a>(store: &'a [u8]) -> Result<Records<'a>, Refusal>
    ensures ok { IfOk result (λ records. records.store.now ≡ store.now) }
    ensures err { IfErr result (λ refusal. (refusal ≡ Store) × (right_of store.now ≡ false)) }
{
    if !header_right(store) {
        return Err(Refusal::Store);
    }
    let end = 4 + word::read_u32(store, 0) as usize;
    let count = word::read_u16(store, 6);
    let mut starts: [u16; 64] = [0; 64];
    let mut at = 8;
    for _ in 0..count {
        if !stands(store, &starts, end, at) {
            return Err(Refusal::Store);
        }
        let number = word::read_u16(store, at + 2) as usize - 256;
        starts[number] = at as u16;
        at = at + 2 + word::read_u16(store, at) as usize;
    }
    if at != end {
        return Err(Refusal::Store);
    }
    Ok(Records { store, starts })
}

impl<'a> Records<'a> {
    // The lowest number without a record.
    pub(crate) fn first_free(&self) -> Option<usize>
        ensures { result ≡ position (λ start. start == 0) self.now.starts }
    {
        self.starts.iter().position(|start| *start == 0)
    }

    // Where the record of a number starts.
    pub(crate) fn start_of(&self, number: usize) -> Option<usize>
        ensures { MatchOption result (slice_index self.now.starts number ≡ 0) (λ at. (at ≡ slice_index self.now.starts number) × (at ≢ 0)) }
    {
        match self.starts.get(number) {
            Some(start) if *start != 0 => Some(*start as usize),
            _ => None,
        }
    }

    // Where the table of a number lies. Refusal 29 for a number that is not held.
    pub fn part_of(&self, number: usize) -> Result<Part, Refusal>
        ensures { found result ≡ part_of self.now.store.now number }
    {
        let Some(at) = self.start_of(number) else {
            return Err(Refusal::Number);
        };
        let size = word::read_u16(self.store, at) as usize;
        Ok(Part {
            start: at + 4,
            end: at + 2 + size,
        })
    }
}
