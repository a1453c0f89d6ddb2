// One field: the size of its value, and where its parts lie.
ghost use Rattle.std.specs.Prelude.{◌≡◌, ◌+◌, ◌<◌, ◌≤◌, length};
ghost use Rattle.notice.specs.Field.{size_right};
ghost use Rattle.notice.specs.Layout.{size_at, name_size_at, name_at, value_start, next_at, lies_at, right_at};

use crate::name::name_right;

// "Kinds: 1 int32 (4 bytes), 2 int64 (8), 3 real64 (8, bits), 4 string, 5 opaque (each 0..1,024)."
pub fn size_right(kind: u16, size: usize) -> bool
    ensures { result ≡ size_right kind size }
{
    match kind {
        1 => size == 4,
        2 | 3 => size == 8,
        4 | 5 => size <= 1024,
        _ => false,
    }
}

// The field's length word, and the length of its name. The callers have tested that the bytes are there.
pub fn field_size(notice: &[u8], at: usize) -> usize
    requires { at + 2 ≤ length notice.now }
    ensures { (result ≡ size_at notice.now at) × (result < 65536) }
{
    word::read_u16(notice, at) as usize
}

pub fn name_size(notice: &[u8], at: usize) -> usize
    requires { at + 4 < length notice.now }
    ensures { (result ≡ name_size_at notice.now at) × (result < 256) }
{
    notice[at + 4] as usize
}

// The name, where the value starts, and where the next field does, of a field that lies within the notice.
pub fn name_at<'a>(notice: &'a [u8], at: usize) -> &'a [u8]
    requires { at + 5 + name_size_at notice.now at ≤ length notice.now }
    ensures { result.now ≡ name_at notice.now at }
{
    let start = at + 5;
    let end = start + name_size(notice, at);
    &notice[start..end]
}

pub(crate) fn value_at(notice: &[u8], at: usize) -> usize
    requires { at + 4 < length notice.now }
    ensures { result ≡ value_start notice.now at }
{
    at + 5 + name_size(notice, at)
}

pub fn next_at(notice: &[u8], at: usize) -> usize
    requires { at + 2 ≤ length notice.now }
    ensures { result ≡ next_at notice.now at }
{
    at + 2 + field_size(notice, at)
}

// Whether the field at `at` lies within the notice.
pub(crate) fn lies(notice: &[u8], at: usize) -> bool
    requires { at ≤ length notice.now }
    ensures { result ≡ lies_at notice.now at }
{
    let left = notice.len() - at;
    if left < 5 {
        return false;
    }
    let size = field_size(notice, at);
    if size < 3 + name_size(notice, at) {
        return false;
    }
    size <= left - 2
}

// Whether a field that is right by itself starts at `at`.
pub fn stands(notice: &[u8], at: usize) -> bool
    requires { at ≤ length notice.now }
    ensures { result ≡ right_at notice.now at }
{
    if !lies(notice, at) {
        return false;
    }
    if !name_right(name_at(notice, at)) {
        return false;
    }
    size_right(
        word::read_u16(notice, at + 2),
        next_at(notice, at) - value_at(notice, at),
    )
}
