// The quorum counter: a decision in a lent buffer, and the people counted in it. Document 02, request 3.
#![tactic(auto)]

ghost use Rattle.std.specs.Prelude.{◌≡◌, false};
ghost use Rattle.quorum.specs.Showing.{refused_number, refused_place, shown, ended, placed, shown_as, open_refusal, Opens, Shows};

mod judging;
mod state;

use judging::{run_in, turn_of};
use refusal::Refusal;
use state::{add, holds, keep};

// The first undecided entry of a call without a run.
const NO_ENTRY: u16 = 65535;

// What opening and showing answer: the refusal, the count, whether it has reached the needed number, and the run's first undecided entry (request 7).
#[derive(Clone, Copy)]
pub struct Shown {
    pub refusal: Option<Refusal>,
    pub count: u8,
    pub reached: bool,
    pub undecided: u16,
}

// What a notice is to a decision: it is left aside, adds its Staff, or is refused.
#[derive(Clone, Copy)]
enum Turn<'a> {
    Left,
    Added(&'a [u8]),
    Refused(Refusal),
}

// "The answer is the count and whether it has reached the needed number."
fn answer(refusal: Option<Refusal>, count: u8, needed: u8, undecided: u16) -> Shown
    ensures { shown result ≡ shown_as (refused_number refusal) (refused_place refusal) count needed undecided }
{
    Shown {
        refusal,
        count,
        reached: needed <= count,
        undecided,
    }
}

// "(at opening and with 12: 0, not reached)"
fn nothing_yet(refusal: Option<Refusal>) -> Shown
    ensures { shown result ≡ record { number = refused_number refusal; place = refused_place refusal; count = 0; reached = false; undecided = 65535 } }
{
    Shown {
        refusal,
        count: 0,
        reached: false,
        undecided: NO_ENTRY,
    }
}

// Whether a decision may be opened: 12, 21, 9 in this order.
fn may_open(room: usize, table: &[u8], needed: usize) -> Result<(), Refusal>
    ensures number { ended result ≡ open_refusal room table.now needed }
    ensures place { placed result ≡ 0 }
{
    if !table::check(table) {
        return Err(Refusal::Table);
    }
    if needed < 1 || 8 < needed {
        return Err(Refusal::Needed);
    }
    if room < 528 || room - 528 < table.len() {
        return Err(Refusal::Buffer);
    }
    Ok(())
}

// Opens a decision in a lent buffer. A refusal changes no byte.
pub fn open(buffer: &mut [u8], table: &[u8], needed: usize) -> Shown
    ensures { Opens buffer.old table.now needed buffer.new (shown result) }
{
    match may_open(buffer.len(), table, needed) {
        Ok(()) => {
            keep(buffer, table, needed as u8);
            nothing_yet(None)
        }
        Err(refusal) => nothing_yet(Some(refusal)),
    }
}

// Shows a notice to a decision. A refusal changes no byte, and "answers its number, the run's place and the rest as it stood".
pub fn show(buffer: &mut [u8], notice: &[u8]) -> Shown
    ensures { Shows buffer.old notice.now buffer.new (shown result) }
{
    if !holds(buffer) {
        return nothing_yet(Some(Refusal::Table));
    }
    let mut starts: [u16; 64] = [0; 64];
    let ran = run_in(buffer, notice, &mut starts);
    let undecided = match ran {
        Ok(ran) => ran.undecided,
        Err(_) => NO_ENTRY,
    };
    let needed = buffer[6];
    let count = buffer[7];
    match turn_of(buffer, notice, &starts, ran) {
        Turn::Left => answer(None, count, needed, undecided),
        Turn::Added(v) => {
            add(buffer, v);
            answer(None, count + 1, needed, undecided)
        }
        Turn::Refused(refusal) => answer(Some(refusal), count, needed, undecided),
    }
}
