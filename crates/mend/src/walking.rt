// "goes field by field by the length words from offset 8", in two passes: one judges all, notes what each is and changes nothing outside, the other lists.
ghost use Rattle.std.specs.Prelude.{◌≡◌, cond, ◌&&◌, ◌+◌, ◌*◌, ◌≤◌, ◌<◌, ◌∷◌, [], ◌++◌, ltb, length, take};
ghost use Rattle.std.proofs.lemmas.List.Edits.{sets};
ghost use Rattle.word.specs.Word.{word_bytes};
ghost use Rattle.notice.specs.Layout.{next_at};
ghost use Rattle.mend.specs.Mend.{stays, list_of, list_bytes, onto};
ghost use Rattle.mend.specs.Fate.{code_of};
ghost use Rattle.mend.specs.Order.{codes_of, InOrder, Sized, Roomy, Judges, Admits, SurveyIs};

use crate::fate::Fate;
use crate::fields::{next, right};
use crate::ordering::{among, comes_last, place_for, put_in};
use refusal::Refusal;

// What the first pass finds: how many fields are kept, the notice's length, and how many fields are listed.
#[derive(Clone, Copy)]
pub(crate) struct Tally {
    pub kept: usize,
    pub size: usize,
    pub count: usize,
}

// The field from `at` to `end`: kept, moved, repeated, bad or cut.
fn judge(bytes: &[u8], order: &[u16; 65], n: usize, at: usize, end: usize) -> Fate
    requires { (at < length bytes.now) × (end ≡ next_at bytes.now at) × InOrder bytes.now order.now n }
    ensures { Judges bytes.now order.now n at result }
{
    if bytes.len() < end {
        return Fate::Cut;
    }
    if !right(bytes, at, end) {
        return Fate::Bad;
    }
    if comes_last(bytes, order, n, at) {
        return Fate::Kept(n);
    }
    among(bytes, order, n, place_for(bytes, order, n, at), at)
}

// The same, and its place among those kept if it stays.
fn admit(bytes: &[u8], order: &mut [u16; 65], n: usize, at: usize, end: usize) -> Fate
    requires { (at < length bytes.now) × Sized bytes.now × (end ≡ next_at bytes.now at) × (n < 65) × InOrder bytes.now order.old n }
    ensures { Admits bytes.now order.old n at order.new (code_of result) }
{
    let fate = judge(bytes, order, n, at, end);
    let Some(place) = fate.place() else {
        return fate;
    };
    put_in(order, n, place, at);
    fate
}

// n if the field stays, and none if not.
fn gain(fate: Fate, n: usize) -> usize
    ensures { result ≡ cond (stays (code_of fate)) n 0 }
{
    if fate.place().is_some() { n } else { 0 }
}

// Whether the first pass goes on: bytes are left, and fewer than 65 fields are kept. "The header's words are not believed."
fn goes_on(bytes: &[u8], at: usize, kept: usize) -> bool
    requires { Sized bytes.now }
    ensures { result ≡ (ltb at (length bytes.now) && ltb kept 65) }
{
    (at < bytes.len()) & (kept < 65)
}

// The first pass: judges, notes and counts. "15 if 65 fields would be kept"
pub(crate) fn survey(
    bytes: &[u8],
    order: &mut [u16; 65],
    codes: &mut [u8],
) -> Result<Tally, Refusal>
    requires { Sized bytes.now × (length order.old ≡ 65) × Roomy bytes.now codes.old }
    ensures { SurveyIs bytes.now order.new codes.new result }
{
    let mut kept = 0;
    let mut at = 8;
    let mut size = 8;
    let mut count = 0;
    while goes_on(bytes, at, kept) {
        let end = next(bytes, at);
        let fate = admit(bytes, order, kept, at, end);
        codes[count] = u8::from(fate);
        kept += gain(fate, 1);
        size += gain(fate, end - at);
        at = end;
        count += 1;
    }
    if kept == 65 {
        return Err(Refusal::Room);
    }
    Ok(Tally { kept, size, count })
}

// "3 bytes a field, u16 offset and one byte 0..4"
fn put_entry(list: &mut [u8], place: usize, at: u16, code: u8)
    requires { place + 3 ≤ length list.old }
    ensures { list.new ≡ sets list.old place (word_bytes 2 at ++ (code ∷ [])) }
{
    word::write_u16(list, place, at);
    list[place + 2] = code;
}

// The second pass: lists what was noted.
pub(crate) fn list_fields(bytes: &[u8], list: &mut [u8], codes: &[u8])
    requires { Sized bytes.now × (take (length (list_of bytes.now)) codes.now ≡ codes_of (list_of bytes.now)) × (3 * length (list_of bytes.now) ≤ length list.old) }
    ensures { list.new ≡ onto (list_bytes (list_of bytes.now)) list.old }
{
    let mut at = 8;
    let mut count = 0;
    while at < bytes.len() {
        put_entry(list, 3 * count, at as u16, codes[count]);
        at = next(bytes, at);
        count += 1;
    }
}
