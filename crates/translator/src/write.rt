// From sizes and codes to the table, each by one pass: how long the pool is, and the entries and the pool.
ghost use Rattle.std.specs.Prelude.{◌≡◌, ◌+◌, ◌≤◌, length};
ghost use Rattle.std.proofs.lemmas.List.Edits.{sets};
ghost use Rattle.table.specs.Table.{entries_bytes};
ghost use Rattle.translator.specs.Emit.{entry_start};
ghost use Rattle.translator.specs.Expand.{operands_by, expand, pooled, sum_from, Sized};

use crate::entry;
use grammar::stream;

// The sum of the first n sizes.
pub fn pool_length(sizes: &[u16], n: usize) -> usize
    requires { n ≤ 4096 }
    ensures { result ≡ sum_from sizes.now 0 n }
{
    let mut sum: usize = 0;
    for i in 0..n {
        sum += stream::start(sizes, i);
    }
    sum
}

// How many operands of the text a code stands for.
fn operands(c: u16) -> usize
    ensures { (result ≡ operands_by c) × (result ≤ 1) }
{
    if entry::pushes(c) { 1 } else { 0 }
}

// The entries of the codes stand behind the header, each in its own stretch, and the pool behind them; every other byte stays. The sizes of the operands are told.
pub fn write(text: &[u8], places: &[u16], sizes: &[u16], codes: &[u16], out: &mut [u8])
    requires { (length codes.now ≤ 512) × (entry_start (length codes.now) + length (pooled text.now places.now codes.now 0) ≤ length out.old) × (length (pooled text.now places.now codes.now 0) ≤ 4096) × Sized text.now places.now sizes.now codes.now 0 }
    ensures { out.new ≡ sets (sets out.old 10 (entries_bytes (expand text.now places.now codes.now 0 0))) (entry_start (length codes.now)) (pooled text.now places.now codes.now 0) }
{
    let from = 10 + 12 * codes.len();
    let mut leaf: usize = 0;
    let mut pool: usize = 0;
    for (i, c) in codes.iter().enumerate() {
        let n = entry::put_code(text, *c, places, sizes, leaf, out, i, from, pool);
        leaf += operands(*c);
        pool += n;
    }
}
