// The benchmark's static library: the function of the crate repeat under the name that C calls it by, with the clause that it has there.
#![tactic(auto)]

ghost use Rattle.std.specs.Prelude.{◌≡◌};
ghost use Rattle.repeat.specs.Repeat.{repeat_of};

// The inner run so many times, table and notice checked once; what the sum is of stands at `repeat::repeat_run`.
#[unsafe(no_mangle)]
pub extern "C" fn repeat_run<'a>(table: &'a [u8], notice: &'a [u8], times: u32) -> u64
    ensures { result ≡ repeat_of table.now notice.now times }
{
    repeat::repeat_run(table, notice, times)
}
