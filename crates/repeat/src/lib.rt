// Runs a table many times, for the benchmark: table and notice checked once, then the inner run over and over.
#![tactic(auto)]

ghost use Rattle.std.specs.Prelude.{◌≡◌, true, ◌+◌, ◌*◌, ◌≤◌};
ghost use Rattle.notice.specs.Layout.{check_of as noticeCheck, Indexed};
ghost use Rattle.table.specs.Table.{decode};
ghost use Rattle.table.specs.Check.{check_of as tableCheck};
ghost use Rattle.interpreter.specs.Running.{answer_of};
ghost use Rattle.repeat.specs.Repeat.{weight_of, repeat_of};

// What one run adds to the sum. It asks for a table that passes the check, a notice found well-formed and the starts of its fields.
fn weight<'a>(table: &'a [u8], notice: &'a [u8], starts: &[u16; 64]) -> u64
    requires { (tableCheck table.now ≡ true) × (noticeCheck notice.now ≡ Ok tt) × Indexed notice.now starts.now }
    ensures { (result ≡ weight_of (answer_of (decode table.now) notice.now)) × (result ≤ 268433410) }
{
    let ran = interpreter::run_whole(table, notice, starts);
    4096 * (ran.undecided as u64) + 4 * (ran.steps as u64) + (ran.verdict as u64)
}

// The sum over so many runs. It asks for a table that passes the check, a notice found well-formed and the starts of its fields.
fn sum<'a>(table: &'a [u8], notice: &'a [u8], starts: &[u16; 64], times: u32) -> u64
    requires { (tableCheck table.now ≡ true) × (noticeCheck notice.now ≡ Ok tt) × Indexed notice.now starts.now }
    ensures { result ≡ times * weight_of (answer_of (decode table.now) notice.now) }
{
    let mut total = 0;
    for i in 0..times {
        total += weight(table, notice, starts);
    }
    total
}

// The inner run so many times, table and notice checked once. It answers the sum of the runs' undecided entries, each 4,096 times, of their steps, each four times, and of their verdicts' ranks; 0 if the table fails the check or the notice is not well-formed.
pub fn repeat_run<'a>(table: &'a [u8], notice: &'a [u8], times: u32) -> u64
    ensures { result ≡ repeat_of table.now notice.now times }
{
    if !table::check(table) {
        return 0;
    }
    let mut starts: [u16; 64] = [0; 64];
    let layout = notice::index(notice, &mut starts);
    match layout {
        Ok(()) => sum(table, notice, &starts, times),
        Err(_) => 0,
    }
}
