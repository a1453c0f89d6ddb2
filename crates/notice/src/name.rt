// A name by itself: "u8 name length 1..64; name (bytes 32..126)". Eight bytes at once are judged where the name has as many.
ghost use Rattle.std.specs.Prelude.{◌≡◌, ℕ, ◌-◌, ◌*◌, ◌^◌, ◌<◌, ◌≤◌, ◌↔◌, length, All, IsTrue};
ghost use Rattle.word.specs.Word.{word_bytes};
ghost use Rattle.notice.specs.Field.{printable, name_right};

// Whether each byte of a word is 32..126, but its m lowest, which are 0 and are not asked about. A byte of 128 or more has its high bit; if none has, the sum and the difference
// carry nothing from byte to byte: they have a high bit where a byte is 127, and where it is below 32.
pub(crate) fn word_right(x: u64, m: usize) -> bool
    requires { m < 8 }
    ensures { (y : ℕ) → x ≡ y * 256 ^ m → y < 256 ^ (8 - m) → result ≡ printable (word_bytes (8 - m) y) }
{
    let mask = 0x8080_8080_8080_8080 << (m * 8);
    let high = std::num::wrapping_add_u64(x, 0x0101_0101_0101_0101);
    let low = std::num::wrapping_sub_u64(0x9f9f_9f9f_9f9f_9f9f, x);
    (x & mask == 0) & ((high & mask == 0) & (low & mask == 0))
}

// By words from the start, and one that ends with the name.
pub(crate) fn words_right(name: &[u8]) -> bool
    requires { 8 ≤ length name.now }
    ensures { result ≡ printable name.now }
{
    let last = name.len() - 8;
    let mut i = 0;
    while i < last {
        if word_right(word::read_u64(name, i), 0) {
            i += 8;
        } else {
            return false;
        }
    }
    word_right(word::read_u64(name, last), 0)
}

// By the word of its first four bytes and its last four.
fn halves_right(name: &[u8]) -> bool
    requires { (4 ≤ length name.now) × (length name.now ≤ 8) }
    ensures { result ≡ printable name.now }
{
    let low = word::read_u32(name, 0) as u64;
    let high = word::read_u32(name, name.len() - 4) as u64;
    word_right(low + 0x1_0000_0000 * high, 0)
}

fn bytes_right(name: &[u8]) -> bool
    ensures { IsTrue result ↔ All (λ b. (32 ≤ b) × (b ≤ 126)) name.now }
{
    name.iter().all(|b| (32 <= *b) & (*b <= 126))
}

pub fn name_right(name: &[u8]) -> bool
    ensures { result ≡ name_right name.now }
{
    match name.len() {
        1..=3 => bytes_right(name),
        4..=7 => halves_right(name),
        8..=64 => words_right(name),
        _ => false,
    }
}
