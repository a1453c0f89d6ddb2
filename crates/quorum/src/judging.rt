// What a notice is to a decision.
ghost use Rattle.std.specs.Prelude.{◌≡◌, true, Ok, ◌<◌, [], length, MatchOption};
ghost use Rattle.notice.specs.Layout.{check_of as noticeCheck, Indexed};
ghost use Rattle.interpreter.specs.Running.{answered, running_of};
ghost use Rattle.quorum.specs.Decision.{table_of, values_of, kept, holds_of};
ghost use Rattle.quorum.specs.Showing.{Marks, turned, Brings, staff_of, staff_turn, turn_of};

use crate::Turn;
use crate::state::{has, size_of};
use interpreter::Ran;
use notice::FoundField;
use refusal::Refusal;

// The value of the field Staff, if it is a string of 1..64 bytes. It asks for a notice found well-formed, so that the search may stop (document 02, request 11).
fn staff<'a>(notice: &'a [u8], starts: &[u16; 64]) -> Option<&'a [u8]>
    requires { (noticeCheck notice.now ≡ Ok tt) × Indexed notice.now starts.now }
    ensures { MatchOption result (staff_of notice.now ≡ []) (λ v. (v.now ≡ staff_of notice.now) × (0 < length v.now)) }
{
    let FoundField { kind, start, len } = notice::lookup_along(notice, starts, b"Staff")?;
    if (kind == 4) & ((1 <= len) & (len <= 64)) {
        let a = start as usize;
        let e = a + len as usize;
        return Some(&notice[a..e]);
    }
    None
}

// A notice whose verdict is true, by its Staff: counted before, new, or 20.
fn judge<'a>(buffer: &[u8], v: &'a [u8]) -> Turn<'a>
    requires { (holds_of buffer.now ≡ true) × (0 < length v.now) }
    ensures turn { turned result ≡ staff_turn v.now (values_of buffer.now) }
    ensures staff { Brings result v.now }
{
    let n = buffer[7] as usize;
    if has(buffer, 0, n, v) {
        return Turn::Left;
    }
    if n < 8 {
        return Turn::Added(v);
    }
    Turn::Refused(Refusal::Person)
}

// The run of the table that a decision keeps. It leaves the starts of the notice's fields.
pub fn run_in<'a>(
    buffer: &'a [u8],
    notice: &'a [u8],
    starts: &mut [u16; 64],
) -> Result<Ran, Refusal>
    requires { (holds_of buffer.now ≡ true) × (length starts.old ≡ 64) }
    ensures value { answered result ≡ running_of (table_of buffer.now) notice.now }
    ensures marks { Marks notice.now starts.new }
{
    notice::index(notice, starts)?;
    let size = size_of(buffer);
    Ok(interpreter::run_whole(&buffer[528..size], notice, starts))
}

// "Each notice shown to it is run", and `ran` is what the run answered: refused with the run; by its Staff, 19 if it has none, if the verdict is true; else left aside.
pub fn turn_of<'a>(
    buffer: &[u8],
    notice: &'a [u8],
    starts: &[u16; 64],
    ran: Result<Ran, Refusal>,
) -> Turn<'a>
    requires { (holds_of buffer.now ≡ true) × (answered ran ≡ running_of (table_of buffer.now) notice.now) × Marks notice.now starts.now }
    ensures turn { turned result ≡ turn_of (kept buffer.now) notice.now }
    ensures staff { Brings result (staff_of notice.now) }
{
    match ran {
        Ok(ran) => {
            if !truth::is_true(ran.verdict) {
                Turn::Left
            } else {
                match staff(notice, starts) {
                    Some(v) => judge(buffer, v),
                    None => Turn::Refused(Refusal::Staff),
                }
            }
        }
        Err(refusal) => Turn::Refused(refusal),
    }
}
