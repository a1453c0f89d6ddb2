// What every crate may use: in specs/ a choice and a property of each of a list, here copies and moves of bytes in a lent buffer. Each asks that the bytes lie in the buffer.
#![tactic(auto)]

ghost use Rattle.std.specs.Prelude.{◌≡◌, ◌+◌, ◌-◌, ◌≤◌, length, take, drop};
ghost use Rattle.std.proofs.lemmas.List.Edits.{sets};

// Copies a slice to `at`. By a loop, of which the compiler makes wide moves: `copy_from_slice` becomes a call of memcpy or memmove, and the library calls nothing but memset.
pub fn copy_to(buffer: &mut [u8], at: usize, s: &[u8])
    requires { at + length s.now ≤ length buffer.old }
    ensures { buffer.new ≡ sets buffer.old at s.now }
{
    for i in 0..s.len() {
        buffer[at + i] = s[i];
    }
}

// Moves the bytes from `at` to `end` up by `by`.
pub fn move_up(buffer: &mut [u8], at: usize, end: usize, by: usize)
    requires { (at ≤ end) × (end + by ≤ length buffer.old) }
    ensures { buffer.new ≡ sets buffer.old (at + by) (take (end - at) (drop at buffer.old)) }
{
    buffer.copy_within(at..end, at + by);
}

// Moves the bytes from `from` to `end` down to `at`.
pub fn move_down(buffer: &mut [u8], at: usize, from: usize, end: usize)
    requires { (at ≤ from) × (from ≤ end) × (end ≤ length buffer.old) }
    ensures { buffer.new ≡ sets buffer.old at (take (end - from) (drop from buffer.old)) }
{
    buffer.copy_within(from..end, at);
}
