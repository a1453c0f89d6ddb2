// Writing: the fields of a notice as a text, in the one fixed form.
ghost use Rattle.std.specs.Prelude.{◌≡◌, true, ◌+◌, ◌≤◌, leb, length};
ghost use Rattle.decimal.specs.Decimal.{Put};
ghost use Rattle.notice.specs.Field.{size_right};
ghost use Rattle.notice.specs.Layout.{right_at, field_at, size_at, name_size_at, check_of, fields_of};
ghost use Rattle.ubf.specs.Text.{value_text, binary_text, field_text, fields_text, text_of};
ghost use Rattle.ubf.specs.Answer.{has_real, leaves, answer_of, WriteIs};

use crate::put::{
    escaped_length, put_signed, put_string, put_tag, signed_length, signed4, signed8,
};
use decimal::{places, put_byte, put_bytes, put_decimal};
use refusal::Refusal;

fn binary_length(value: &[u8]) -> usize
    requires { length value.now ≤ 1024 }
    ensures { (result ≡ length (binary_text value.now)) × (result ≤ 2048) }
{
    places(value.len() as u64) + (value.len() + 2)
}

fn put_binary(out: &mut [u8], at: usize, value: &[u8]) -> usize
    requires { at + length (binary_text value.now) ≤ length out.old }
    ensures { Put out.old at (binary_text value.now) out.new result }
{
    let a = put_decimal(out, at, value.len() as u64);
    let b = put_byte(out, a, b'~');
    let c = put_bytes(out, b, value);
    put_byte(out, c, b'~')
}

fn value_length(kind: u16, value: &[u8]) -> usize
    requires { size_right kind (length value.now) ≡ true }
    ensures { (result ≡ length (value_text kind value.now)) × (result ≤ 3000) }
{
    if kind == 1 {
        return signed_length(signed4(word::read_u32(value, 0)));
    }
    if kind == 2 {
        return signed_length(signed8(word::read_u64(value, 0))) + 7;
    }
    if kind == 4 {
        return escaped_length(value) + 2;
    }
    binary_length(value)
}

fn put_value(out: &mut [u8], at: usize, kind: u16, value: &[u8]) -> usize
    requires { (size_right kind (length value.now) ≡ true) × (at + length (value_text kind value.now) ≤ length out.old) }
    ensures { Put out.old at (value_text kind value.now) out.new result }
{
    if kind == 1 {
        return put_signed(out, at, signed4(word::read_u32(value, 0)));
    }
    if kind == 2 {
        let next = put_signed(out, at, signed8(word::read_u64(value, 0)));
        return put_tag(out, next);
    }
    if kind == 4 {
        return put_string(out, at, value);
    }
    put_binary(out, at, value)
}

// The field's length word, and the length of its name.
fn field_size(notice: &[u8], at: usize) -> usize
    requires { at + 2 ≤ length notice.now }
    ensures { (result ≡ size_at notice.now at) × (result ≤ 65535) }
{
    word::read_u16(notice, at) as usize
}

fn name_size(notice: &[u8], at: usize) -> usize
    requires { at + 5 ≤ length notice.now }
    ensures { (result ≡ name_size_at notice.now at) × (result ≤ 255) }
{
    notice[at + 4] as usize
}

fn field_length(notice: &[u8], at: usize) -> usize
    requires { right_at notice.now at ≡ true }
    ensures { (result ≡ length (field_text (field_at notice.now at))) × (result ≤ 4096) }
{
    let name = at + 5;
    let value = name + name_size(notice, at);
    let end = at + 2 + field_size(notice, at);
    let n = escaped_length(&notice[name..value]);
    n + 2 + value_length(word::read_u16(notice, at + 2), &notice[value..end])
}

fn put_field(out: &mut [u8], p: usize, notice: &[u8], at: usize) -> usize
    requires { (right_at notice.now at ≡ true) × (p + length (field_text (field_at notice.now at)) ≤ length out.old) }
    ensures { Put out.old p (field_text (field_at notice.now at)) out.new result }
{
    let name = at + 5;
    let value = name + name_size(notice, at);
    let end = at + 2 + field_size(notice, at);
    let next = put_string(out, p, &notice[name..value]);
    put_value(
        out,
        next,
        word::read_u16(notice, at + 2),
        &notice[value..end],
    )
}

// Whether a field is a real64.
fn has_real(notice: &[u8]) -> bool
    requires { check_of notice.now ≡ Ok tt }
    ensures { result ≡ has_real (fields_of notice.now) }
{
    let mut real = false;
    let mut left = word::read_u16(notice, 6);
    let mut at = 8;
    while 0 < left {
        real = real | (word::read_u16(notice, at + 2) == 3);
        at = at + 2 + field_size(notice, at);
        left -= 1;
    }
    real
}

// The length of the fields' texts.
fn measure(notice: &[u8]) -> usize
    requires { check_of notice.now ≡ Ok tt }
    ensures { (result ≡ length (fields_text (fields_of notice.now))) × (result ≤ 262144) }
{
    let mut len = 0;
    let mut left = word::read_u16(notice, 6);
    let mut at = 8;
    while 0 < left {
        len = len + field_length(notice, at);
        at = at + 2 + field_size(notice, at);
        left -= 1;
    }
    len
}

// Whether the text has room. None is longer than twice its notice and 5 bytes a field: one that surely fits is not measured.
fn has_room(notice: &[u8], room: usize) -> bool
    requires { check_of notice.now ≡ Ok tt }
    ensures { result ≡ leb (length (text_of (fields_of notice.now))) room }
{
    if 2 * notice.len() + 320 <= room {
        return true;
    }
    measure(notice) + 3 <= room
}

fn put_fields(out: &mut [u8], from: usize, notice: &[u8]) -> usize
    requires { (check_of notice.now ≡ Ok tt) × (from + length (fields_text (fields_of notice.now)) ≤ length out.old) }
    ensures { Put out.old from (fields_text (fields_of notice.now)) out.new result }
{
    let mut p = from;
    let mut left = word::read_u16(notice, 6);
    let mut at = 8;
    while 0 < left {
        p = put_field(out, p, notice, at);
        at = at + 2 + field_size(notice, at);
        left -= 1;
    }
    p
}

fn put_text(out: &mut [u8], notice: &[u8]) -> usize
    requires { (check_of notice.now ≡ Ok tt) × (length (text_of (fields_of notice.now)) ≤ length out.old) }
    ensures { (out.new ≡ leaves 0 (text_of (fields_of notice.now)) out.old) × (result ≡ length (text_of (fields_of notice.now))) }
{
    let a = put_byte(out, 0, b'{');
    let b = put_fields(out, a, notice);
    let c = put_byte(out, b, b'}');
    put_byte(out, c, b'$')
}

// The notice as a text at the start of the buffer, and its length. Refusals: 11 with its place, 23 for a real64 field, 15 for room. A refusal changes no byte.
pub fn write(notice: &[u8], buffer: &mut [u8]) -> Result<usize, Refusal>
    ensures { WriteIs notice.now buffer.old (answer_of result) buffer.new }
{
    notice::check(notice)?;
    if has_real(notice) {
        return Err(Refusal::Content);
    }
    if !has_room(notice, buffer.len()) {
        return Err(Refusal::Room);
    }
    Ok(put_text(buffer, notice))
}
