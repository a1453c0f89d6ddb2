// The order of names: "Names rise strictly by bytes, a prefix before the longer." Most names differ in their first eight bytes.
ghost use Rattle.std.specs.Prelude.{◌≡◌, ◌+◌, ◌≤◌, length, take, drop};
ghost use Rattle.notice.specs.Layout.{stands_at};
ghost use Rattle.notice.specs.Key.{right_key, key_at, last_name_at, Last};

use crate::field::{field_size, lies, name_at, name_size, size_right};
use crate::name::{word_right, words_right};

// The key of a name of n bytes at `at`, or 0 if it is not right. A short one is read with bytes before it, which the shift drops; its key is judged in place of its bytes.
fn short_key(notice: &[u8], at: usize, n: usize) -> u64
    requires { (8 ≤ at) × (1 ≤ n) × (n ≤ 8) × (at + n ≤ length notice.now) }
    ensures { result ≡ right_key (take n (drop at notice.now)) }
{
    let m = 8 - n;
    let key = octets::eight(notice, at + n - 8) << (m * 8);
    if word_right(key, m) {
        return key;
    }
    0
}

fn long_key(notice: &[u8], at: usize, n: usize) -> u64
    requires { (8 ≤ n) × (n ≤ 64) × (at + n ≤ length notice.now) }
    ensures { result ≡ right_key (take n (drop at notice.now)) }
{
    let end = at + n;
    if words_right(&notice[at..end]) {
        return octets::eight(notice, at);
    }
    0
}

fn key_of(notice: &[u8], at: usize, n: usize) -> u64
    requires { (8 ≤ at) × (at + n ≤ length notice.now) }
    ensures { result ≡ right_key (take n (drop at notice.now)) }
{
    match n {
        1..=8 => short_key(notice, at, n),
        9..=64 => long_key(notice, at, n),
        _ => 0,
    }
}

// The key of the name of the field at `at`, or 0 if no field that is right by itself starts there.
pub(crate) fn key_at(notice: &[u8], at: usize) -> u64
    requires { (8 ≤ at) × (at ≤ length notice.now) }
    ensures { result ≡ key_at notice.now at }
{
    if lies(notice, at) {
        let n = name_size(notice, at);
        let size = field_size(notice, at) - (3 + n);
        if size_right(word::read_u16(notice, at + 2), size) {
            return key_of(notice, at + 5, n);
        }
    }
    0
}

// Whether a field that is right by itself starts at `at`, and its name is after that of the last field: by their keys where these differ.
pub(crate) fn follows(notice: &[u8], last: usize, last_key: u64, at: usize, key: u64) -> bool
    requires { Last notice.now last last_key × (key ≡ key_at notice.now at) }
    ensures { result ≡ stands_at (last_name_at notice.now last) notice.now at }
{
    if last_key < key {
        return true;
    }
    if key < last_key {
        return false;
    }
    if key == 0 {
        return false;
    }
    octets::before(name_at(notice, last), false, name_at(notice, at), false)
}
