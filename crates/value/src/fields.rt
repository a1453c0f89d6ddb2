// The values of fields: "5 the field's or bottom".
ghost use Rattle.std.specs.Prelude.{◌≡◌, true, List, ℕ, ◌+◌, ◌≤◌, length, take, drop};
ghost use Rattle.notice.specs.Field.{size_right};
ghost use Rattle.value.specs.Value.{field_value};
ghost use Rattle.value.specs.Held.{noticed, typed_of};

use crate::{Origin, Piece, Typed};

// The value of a field of a kind whose value lies at `start`. It asks that the value has the kind's size and lies in the notice.
pub fn field_value(notice: &[u8], kind: u16, start: u16, len: u16) -> Typed
    requires { (size_right kind len ≡ true) × (start + len ≤ length notice.now) }
    ensures { (p : List ℕ) → typed_of p notice.now result ≡ field_value kind (take len (drop start notice.now)) }
{
    let at = start as usize;
    match kind {
        1 => Typed::Int32(word::read_u32(notice, at).cast_signed()),
        2 => Typed::Int64(word::read_u64(notice, at).cast_signed()),
        3 => Typed::Real(number::real_of_bits(word::read_u64(notice, at))),
        4 => Typed::Text(in_notice(start, len)),
        5 => Typed::Opaque(in_notice(start, len)),
        _ => Typed::Bottom,
    }
}

fn in_notice(start: u16, len: u16) -> Piece
    ensures { result ≡ noticed start len }
{
    Piece {
        origin: Origin::Notice,
        start,
        len,
        folded: false,
    }
}
