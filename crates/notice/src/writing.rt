// Writing: one field more, at its name's place, in a lent buffer.
ghost use Rattle.std.specs.Prelude.{◌≡◌, ◌+◌, ◌≤◌, length};
ghost use Rattle.std.proofs.lemmas.List.Edits.{sets};
ghost use Rattle.notice.specs.Layout.{check_of, number_of, place_of};
ghost use Rattle.notice.specs.Render.{field_bytes};
ghost use Rattle.notice.specs.Write.{field, place_for, has_room, refusal_in, Insertable, inserted_bytes, write_answer, WriteIs};

use crate::field::{lies, name_at, next_at, size_right};
use crate::name::name_right;
use crate::{check, lookup};
use refusal::Refusal;

// The start of the first field that a name is before, or the notice's end.
fn place_for(notice: &[u8], name: &[u8]) -> usize
    requires { (8 ≤ length notice.now) × (length notice.now ≤ 16384) }
    ensures { result ≡ place_for notice.now name.now }
{
    let n = word::read_u16(notice, 6);
    let mut at = 8;
    for _ in 0..n {
        if !lies(notice, at) {
            return notice.len();
        }
        if octets::before(name, false, name_at(notice, at), false) {
            return at;
        }
        at = next_at(notice, at);
    }
    notice.len()
}

// Stores a field's bytes from `at` on. The callers have judged its parts and the room.
fn put_field(buffer: &mut [u8], at: usize, name: &[u8], kind: u16, value: &[u8])
    requires { (length name.now ≤ 64) × (length value.now ≤ 1024) × (at + 5 + length name.now + length value.now ≤ length buffer.old) }
    ensures { buffer.new ≡ sets buffer.old at (field_bytes (field kind name.now value.now)) }
{
    word::write_u16(buffer, at, (3 + name.len() + value.len()) as u16);
    word::write_u16(buffer, at + 2, kind);
    buffer[at + 4] = name.len() as u8;
    common::copy_to(buffer, at + 5, name);
    common::copy_to(buffer, at + 5 + name.len(), value);
}

fn has_room(count: u16, size: usize, room: usize) -> bool
    ensures { result ≡ has_room count size room }
{
    (count < 64) & ((size <= 16384) & (size <= room))
}

// The refusals of a field for a notice in `room` bytes: 13, 16, 14, 15 in this order.
fn refusal(notice: &[u8], room: usize, name: &[u8], kind: u16, value: &[u8]) -> Result<(), Refusal>
    requires { check_of notice.now ≡ Ok tt }
    ensures number { number_of result ≡ refusal_in notice.now room (field kind name.now value.now) }
    ensures no_place { place_of result ≡ 0 }
{
    if !name_right(name) {
        return Err(Refusal::Name);
    }
    if !size_right(kind, value.len()) {
        return Err(Refusal::Size);
    }
    if lookup(notice, name).is_some() {
        return Err(Refusal::Present);
    }
    let size = notice.len() + (5 + name.len() + value.len());
    if !has_room(word::read_u16(notice, 6), size, room) {
        return Err(Refusal::Room);
    }
    Ok(())
}

// Adds a field that was judged to the notice at the start of the buffer.
fn insert(buffer: &mut [u8], len: usize, name: &[u8], kind: u16, value: &[u8])
    requires { Insertable buffer.old len (field kind name.now value.now) }
    ensures { buffer.new ≡ inserted_bytes buffer.old len (field kind name.now value.now) }
{
    let size = 5 + name.len() + value.len();
    let at = place_for(&buffer[0..len], name);
    let count = word::read_u16(&buffer[0..len], 6);
    common::move_up(buffer, at, len, size);
    put_field(buffer, at, name, kind, value);
    word::write_u32(buffer, 0, (len + size - 4) as u32);
    word::write_u16(buffer, 6, count + 1);
}

// Adds one field, at its name's place, to the notice of the first `len` bytes, and answers the new length. A refusal changes no byte.
pub fn write(
    buffer: &mut [u8],
    len: usize,
    name: &[u8],
    kind: u16,
    value: &[u8],
) -> Result<usize, Refusal>
    ensures { WriteIs buffer.old len (field kind name.now value.now) (write_answer len result) buffer.new }
{
    let room = buffer.len();
    if room < len {
        return Err(Refusal::Notice(0));
    }
    let notice = &buffer[..len];
    check(notice)?;
    refusal(notice, room, name, kind, value)?;
    insert(buffer, len, name, kind, value);
    Ok(len + (5 + name.len() + value.len()))
}
