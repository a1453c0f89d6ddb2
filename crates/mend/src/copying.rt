// Copies of many bytes, 32 at once: with the loop's rest in one block the compiler needs no loops for it.
ghost use Rattle.std.specs.Prelude.{◌≡◌, ◌+◌, ◌≤◌, length, take, drop};
ghost use Rattle.std.proofs.lemmas.List.Edits.{sets};

// Copies the 32 bytes from `from` on to `to`.
fn copy_block(buffer: &mut [u8], to: usize, s: &[u8], from: usize)
    requires { (to + 32 ≤ length buffer.old) × (from + 32 ≤ length s.now) }
    ensures { buffer.new ≡ sets buffer.old to (take 32 (drop from s.now)) }
{
    let a = word::read_u64(s, from);
    let b = word::read_u64(s, from + 8);
    let c = word::read_u64(s, from + 16);
    let d = word::read_u64(s, from + 24);
    word::write_u64(buffer, to, a);
    word::write_u64(buffer, to + 8, b);
    word::write_u64(buffer, to + 16, c);
    word::write_u64(buffer, to + 24, d);
}

// The last block ends with the bytes, and may begin among those copied before.
fn copy_long(buffer: &mut [u8], at: usize, s: &[u8])
    requires { (32 ≤ length s.now) × (at + length s.now ≤ length buffer.old) }
    ensures { buffer.new ≡ sets buffer.old at s.now }
{
    let last = s.len() - 32;
    let mut i = 0;
    while i < last {
        copy_block(buffer, at + i, s, i);
        i += 32;
    }
    copy_block(buffer, at + last, s, last);
}

// Copies a slice to `at`.
pub(crate) fn copy(buffer: &mut [u8], at: usize, s: &[u8])
    requires { at + length s.now ≤ length buffer.old }
    ensures { buffer.new ≡ sets buffer.old at s.now }
{
    if s.len() < 32 {
        common::copy_to(buffer, at, s);
        return;
    }
    copy_long(buffer, at, s);
}
