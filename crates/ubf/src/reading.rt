// Reading: a text's fields as a notice, in name order.
ghost use Rattle.std.specs.Prelude.{◌≡◌, length};
ghost use Rattle.ubf.specs.Answer.{ended, placed, answer_of, ReadIs};
ghost use Rattle.ubf.specs.Span.{TupleFound, RefusalIs};

use crate::ordering::arrange;
use crate::placing::put_notice;
use crate::repeats::repeats;
use crate::spans::{Tuple, tuple_in};
use crate::syntax::in_syntax;
use refusal::Refusal;

// "then over all fields 13, 16, 14, 15 in that order"
fn judge(
    text: &[u8],
    rows: &[usize],
    t: Tuple,
    order: &mut [u8],
    room: usize,
) -> Result<(), Refusal>
    requires { TupleFound text.now rows.now t × (length rows.now ≡ 448) × (length order.old ≡ 64) }
    ensures number { RefusalIs text.now rows.now t order.new room (ended result) }
    ensures place { placed result ≡ 0 }
{
    if !t.named {
        return Err(Refusal::Name);
    }
    if !t.sized {
        return Err(Refusal::Size);
    }
    if 64 < t.count {
        if repeats(text) {
            return Err(Refusal::Present);
        }
        return Err(Refusal::Room);
    }
    if !arrange(text, rows, t.count, order) {
        return Err(Refusal::Present);
    }
    if (16384 < t.size) | (room < t.size) {
        return Err(Refusal::Room);
    }
    Ok(())
}

// The notice that a text says, at the start of the buffer, and its length. A refusal changes no byte.
pub fn read(text: &[u8], buffer: &mut [u8]) -> Result<usize, Refusal>
    ensures { ReadIs text.now buffer.old (answer_of result) buffer.new }
{
    let mut rows = [0usize; 448];
    let t = tuple_in(text, &mut rows);
    if !t.right {
        if in_syntax(text) {
            return Err(Refusal::Content);
        }
        return Err(Refusal::Syntax);
    }
    let mut order = [0u8; 64];
    judge(text, &rows, t, &mut order, buffer.len())?;
    put_notice(buffer, text, &rows, &order, t.count, t.size);
    Ok(t.size)
}
