// One field of any bytes: its length word, and its name beside another's.
ghost use Rattle.std.specs.Prelude.{◌≡◌, true, ◌≤◌, ◌<◌, length};
ghost use Rattle.octets.specs.Octets.{same_of, before_of};
ghost use Rattle.notice.specs.Layout.{size_at, next_at, name_at, right_at};

// The length word at `at`. Of a single byte left it is that byte.
fn size_word(bytes: &[u8], at: usize) -> usize
    requires { at < length bytes.now }
    ensures { (result ≡ size_at bytes.now at) × (result < 65536) }
{
    if bytes.len() - at < 2 {
        return bytes[at] as usize;
    }
    word::read_u16(bytes, at) as usize
}

pub(crate) fn next(bytes: &[u8], at: usize) -> usize
    requires { (at < length bytes.now) × (length bytes.now ≤ 16384) }
    ensures { (result ≡ next_at bytes.now at) × (result < 81922) }
{
    at + 2 + size_word(bytes, at)
}

// Whether the whole field from `at` to `end` is right by itself. A right one has six bytes at least.
pub(crate) fn right(bytes: &[u8], at: usize, end: usize) -> bool
    requires { (at < length bytes.now) × (end ≡ next_at bytes.now at) }
    ensures { result ≡ right_at bytes.now at }
{
    if end - at < 6 {
        return false;
    }
    notice::stands(bytes, at)
}

pub(crate) fn same_name(bytes: &[u8], k: usize, at: usize) -> bool
    requires { (right_at bytes.now k ≡ true) × (right_at bytes.now at ≡ true) }
    ensures { result ≡ same_of (name_at bytes.now k) (name_at bytes.now at) }
{
    octets::same(
        notice::name_at(bytes, k),
        false,
        notice::name_at(bytes, at),
        false,
    )
}

// By all bytes.
fn compared(bytes: &[u8], at: usize, k: usize) -> bool
    requires { (right_at bytes.now at ≡ true) × (right_at bytes.now k ≡ true) }
    ensures { result ≡ before_of (name_at bytes.now at) (name_at bytes.now k) }
{
    octets::earlier(notice::name_at(bytes, at), notice::name_at(bytes, k))
}

// By the first byte where these differ.
pub(crate) fn name_before(bytes: &[u8], at: usize, k: usize) -> bool
    requires { (right_at bytes.now at ≡ true) × (right_at bytes.now k ≡ true) }
    ensures { result ≡ before_of (name_at bytes.now at) (name_at bytes.now k) }
{
    let a = bytes[at + 5];
    let b = bytes[k + 5];
    if a == b {
        return compared(bytes, at, k);
    }
    a < b
}
