// Mending the notices of the old consoles. Document 02, request 14.
#![tactic(auto)]

ghost use Rattle.std.specs.Prelude.{◌≡◌, ◌+◌, ◌*◌, ◌≤◌, length};
ghost use Rattle.mend.specs.Mend.{mend_answer, MendIs};
ghost use Rattle.mend.specs.Order.{Sized, Roomy};

mod copying;
mod fate;
mod fields;
mod ordering;
mod placing;
mod walking;

use placing::put_notice;
use refusal::Refusal;
use walking::{list_fields, survey};

// What mending answers: the notice's length and the count of fields listed.
#[derive(Clone, Copy)]
pub struct Mended {
    pub length: usize,
    pub fields: usize,
}

// Both results of bytes of a right size, with room for a note of each field.
fn mend_in(
    bytes: &[u8],
    list: &mut [u8],
    notice: &mut [u8],
    codes: &mut [u8],
) -> Result<Mended, Refusal>
    requires { Sized bytes.now × Roomy bytes.now codes.old }
    ensures { MendIs bytes.now list.old notice.old (mend_answer result) list.new notice.new }
{
    let mut order: [u16; 65] = [0; 65];
    let t = survey(bytes, &mut order, codes)?;
    if (list.len() < 3 * t.count) | (notice.len() < t.size) {
        return Err(Refusal::Buffer);
    }
    list_fields(bytes, list, codes);
    put_notice(notice, bytes, &order, t.kept, t.size);
    Ok(Mended {
        length: t.size,
        fields: t.count,
    })
}

// The same with an array for n notes. Few bytes do not pay for the setting of a long one.
fn mend_noting<const N: usize>(
    bytes: &[u8],
    list: &mut [u8],
    notice: &mut [u8],
) -> Result<Mended, Refusal>
    requires { Sized bytes.now × (length bytes.now ≤ 8 + 2 * N) × (N ≤ 8188) }
    ensures { MendIs bytes.now list.old notice.old (mend_answer result) list.new notice.new }
{
    let mut codes: [u8; N] = [0; N];
    mend_in(bytes, list, notice, &mut codes)
}

// "keeps each field that is right by itself and whose name was not kept before, and writes a well-formed notice"; "It lists per field its offset and one of: kept, moved, repeated, bad, cut."
// Either stands at the start of its lent buffer. A refusal changes no byte.
pub fn mend(bytes: &[u8], list: &mut [u8], notice: &mut [u8]) -> Result<Mended, Refusal>
    ensures { MendIs bytes.now list.old notice.old (mend_answer result) list.new notice.new }
{
    match bytes.len() {
        0..=7 => Err(Refusal::Header),
        8..=136 => mend_noting::<64>(bytes, list, notice),
        137..=2056 => mend_noting::<1024>(bytes, list, notice),
        2057..=16384 => mend_noting::<8188>(bytes, list, notice),
        _ => Err(Refusal::Length),
    }
}
