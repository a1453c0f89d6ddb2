// One notice, the tables that a store holds. Document 02, requests 8 and 12.
ghost use Rattle.std.specs.Prelude.{◌≡◌, Ok, length, get_or};
ghost use Rattle.std.proofs.Math.Option.{none};
ghost use Rattle.notice.specs.Layout.{check_of as noticeCheck, Indexed};
ghost use Rattle.store.specs.Layout.{places_in};
ghost use Rattle.many.specs.Held.{place_byte, held_verdicts, matched, Matches};

use crate::verdict;
use refusal::Refusal;
use store::Records;

// The byte of a number without a table.
const FREE: u8 = 4;

// The byte of one number: 4 for a free place, else that of its table's run.
fn byte_of<'a>(records: &Records<'a>, number: usize, notice: &'a [u8], starts: &[u16; 64]) -> u8
    requires { (noticeCheck notice.now ≡ Ok tt) × Indexed notice.now starts.now }
    ensures { result ≡ place_byte notice.now (get_or (places_in records.now.store.now) number none) }
{
    match records.part_of(number) {
        Ok(part) => verdict(&records.store[part.start..part.end], notice, starts),
        Err(_) => FREE,
    }
}

// The bytes of the 64 numbers, one after the other.
fn deliver<'a>(records: &Records<'a>, notice: &'a [u8], starts: &[u16; 64], verdicts: &mut [u8])
    requires { (noticeCheck notice.now ≡ Ok tt) × Indexed notice.now starts.now × (length verdicts.old ≡ 64) }
    ensures { verdicts.new ≡ held_verdicts records.now.store.now notice.now }
{
    for (number, byte) in verdicts.iter_mut().enumerate() {
        *byte = byte_of(records, number, notice, starts);
    }
}

// Runs every table that a store holds on a notice, and writes 64 bytes, by number: 0 false, 1 true, 2 bottom, 3 table refused, 4 for a free place. The notice is checked once.
// Refusals: 26, 11 with its place, 9 if the verdict buffer is short. A refusal changes no byte.
pub fn match_store<'a>(
    store: &'a [u8],
    notice: &'a [u8],
    verdicts: &mut [u8],
) -> Result<(), Refusal>
    ensures { Matches store.now notice.now verdicts.old verdicts.new (matched result) }
{
    let records = store::index(store)?;
    let mut starts: [u16; 64] = [0; 64];
    notice::index(notice, &mut starts)?;
    if verdicts.len() < 64 {
        return Err(Refusal::Buffer);
    }
    deliver(&records, notice, &starts, &mut verdicts[..64]);
    Ok(())
}
