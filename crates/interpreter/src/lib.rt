// The run of a table on a notice. Document 01, "Table" (the run) and "Refusals by number" (running).
#![tactic(auto)]

ghost use Rattle.std.specs.Prelude.{◌≡◌, true, cond, ◌&&◌, List, ℕ, ◌+◌, ◌-◌, ◌*◌, ◌/◌, ◌≤◌, ◌<◌, eqb, ltb, Ok};
ghost use Rattle.notice.specs.Layout.{check_of as noticeCheck, Indexed};
ghost use Rattle.table.specs.Table.{decode};
ghost use Rattle.table.specs.Check.{check_of};
ghost use Rattle.value.specs.Value.{is_bottom};
ghost use Rattle.value.specs.Held.{item_in};
ghost use Rattle.interpreter.specs.Run.{skips};
ghost use Rattle.interpreter.specs.Machine.{limit_of, Visited};
ghost use Rattle.interpreter.specs.Running.{answered, answer_of, running_of};

use notice::FoundField;
use opcode::groups::Group;
use opcode::{Skip, groups};
use refusal::Refusal;
use truth::Truth;
use value::{Held, Slot};

// The next entry, how many of the stack's slots are taken, the entries visited, the first of them that left bottom on the stack, and the slots, the topmost last.
#[derive(Drop)]
pub struct Machine {
    pub next: usize,
    pub depth: usize,
    pub steps: usize,
    pub undecided: u16,
    pub stack: [Slot; 32],
}

// "44 on a false top and 45 on a true one"
fn skips_on(skip: Skip, top: Truth) -> bool
    ensures { result ≡ skips skip top }
{
    match skip {
        Skip::IfFalse => truth::is_false(top),
        Skip::IfTrue => truth::is_true(top),
    }
}

// How far the visits go: to entry N, or, if the budget ends first, to as many entries as it has and those that skips have passed over; said as the place in the table where that entry starts.
fn limit(n: usize, budget: usize, passed: usize) -> usize
    requires { (passed ≤ n) × (n ≤ 512) }
    ensures { result ≡ 10 + 12 * limit_of n budget passed }
{
    if n - passed <= budget {
        10 + 12 * n
    } else {
        10 + 12 * (budget + passed)
    }
}

// Where the first undecided entry ends, with one more visited: `first` so far, 0 for none; the entry that ends at `end` left `top` on the stack.
fn noted(first: u16, end: usize, top: Slot) -> u16
    requires { end < 65536 }
    ensures { (p : List ℕ) → (q : List ℕ) → result ≡ cond (eqb first 0 && is_bottom (item_in p q top)) end first }
{
    if (first == 0) & value::is_bottom(top) {
        return end as u16;
    }
    first
}

// The number of the entry that ends at a place, of which the first is 22; 65535 for those before it, so for 0, which is none.
fn ending_at(place: u16) -> u16
    ensures { result ≡ cond (ltb place 22) 65535 ((place - 22) / 12) }
{
    if place < 22 {
        return 65535;
    }
    (place - 22) / 12
}

// The inner run: at most `budget` visits, or as many as there are. It asks for a table that passes the check, a notice found well-formed and the starts of its fields, so that a caller checks each once and runs often.
// "After each visit the runner's own next entry and whole stack are those of this rule": `Visited`. Two things are left free. The slots above the depth hold whatever earlier visits left in them; the array has 32 slots, and the depth is
// at most 32. Where a string lies is not told: its slot names some stretch of the pool or of the notice, with a mark or without, that gives the string's bytes.
// The stack is updated in place, and the numbers stand beside it, so that they stay in registers. Each group of operators stores its own answer: where the groups meet, a slot would be put together from its parts.
// Of two operands the second is read first: the slot that is written is then the one that was read last, and the compiler copies nothing between the two.
// It goes by places in the table, `next` and `end`, so that no entry costs a product and nothing but the place is kept; `first` is where the first undecided entry ends, 0 for none.
pub fn run_indexed<'a>(
    table: &'a [u8],
    notice: &'a [u8],
    starts: &[u16; 64],
    budget: usize,
) -> Machine
    requires { (check_of table.now ≡ true) × (noticeCheck notice.now ≡ Ok tt) × Indexed notice.now starts.now }
    ensures { Visited table.now notice.now budget result }
{
    let n = table::count(table);
    let edition = table::edition(table);
    let pool = table::pool(table);
    let mut stack = [Slot {
        held: Held::Logic(Truth::False),
    }; 32];
    let mut next = 10;
    let mut depth = 0;
    let mut passed = 0;
    let mut end = limit(n, budget, 0);
    let mut first: u16 = 0;
    while next < end {
        let number = table::op_from(table, next);
        next = next + 12;
        let group = groups::group_of(number);
        match group {
            Group::Int32 => {
                stack[depth] = value::load_int32(table::b_to(table, next));
                depth = depth + 1;
            }
            Group::Int64 => {
                stack[depth] = value::load_int64(table::b_to(table, next));
                depth = depth + 1;
            }
            Group::Real64 => {
                stack[depth] = value::load_real64(table::b_to(table, next));
                depth = depth + 1;
            }
            Group::Text => {
                stack[depth] = value::load_text(table::a_to(table, next), table::b_to(table, next));
                depth = depth + 1;
            }
            Group::Name => {
                let found = value::find_name(
                    pool,
                    notice,
                    starts,
                    table::a_to(table, next),
                    table::b_to(table, next),
                );
                let i = depth;
                depth = depth + 1;
                match found {
                    Some(FoundField { kind, start, len }) => {
                        stack[i] = value::field(notice, kind, start, len);
                    }
                    None => {
                        let r = value::missing();
                        stack[i] = r;
                        first = noted(first, next, r);
                    }
                }
            }
            Group::Change => {
                let i = depth - 1;
                let x = stack[i];
                let r = value::change(pool, notice, groups::change_of(number), x);
                stack[i] = r;
                first = noted(first, next, r);
            }
            Group::Combine => {
                let i = depth - 2;
                depth = depth - 1;
                let y = stack[depth];
                let x = stack[i];
                let r = value::combine(edition, groups::combine_of(number), x, y);
                stack[i] = r;
                first = noted(first, next, r);
            }
            Group::Equality => {
                let i = depth - 2;
                depth = depth - 1;
                let y = stack[depth];
                let x = stack[i];
                let r = value::equality(pool, notice, groups::is_not_equal(number), x, y);
                stack[i] = r;
                first = noted(first, next, r);
            }
            Group::Order => {
                let i = depth - 2;
                depth = depth - 1;
                let y = stack[depth];
                let x = stack[i];
                let r = value::ordered(groups::order_of(number), x, y);
                stack[i] = r;
                first = noted(first, next, r);
            }
            Group::Not => {
                let i = depth - 1;
                let x = stack[i];
                stack[i] = value::not(x);
            }
            Group::And => {
                let i = depth - 2;
                depth = depth - 1;
                let y = stack[depth];
                let x = stack[i];
                stack[i] = value::and(x, y);
            }
            Group::Xor => {
                let i = depth - 2;
                depth = depth - 1;
                let y = stack[depth];
                let x = stack[i];
                stack[i] = value::xor(x, y);
            }
            Group::Or => {
                let i = depth - 2;
                depth = depth - 1;
                let y = stack[depth];
                let x = stack[i];
                stack[i] = value::or(x, y);
            }
            Group::SkipIfFalse => {
                let i = depth - 1;
                let x = stack[i];
                if skips_on(Skip::IfFalse, value::truth_in(x)) {
                    let a = table::a_to(table, next) as usize;
                    next = next + 12 * a;
                    passed = passed + a;
                    end = limit(n, budget, passed);
                }
            }
            Group::SkipIfTrue => {
                let i = depth - 1;
                let x = stack[i];
                if skips_on(Skip::IfTrue, value::truth_in(x)) {
                    let a = table::a_to(table, next) as usize;
                    next = next + 12 * a;
                    passed = passed + a;
                    end = limit(n, budget, passed);
                }
            }
            Group::Test => {
                let i = depth - 1;
                let x = stack[i];
                stack[i] = value::test(groups::test_of(number), x);
            }
            Group::Many => {
                let k = groups::many_of(number);
                let i = depth - (table::a_to(table, next) as usize + 1);
                let x = stack[i];
                let mut known = value::start(k, x);
                let mut j = i + 1;
                while (j < depth) & value::is_open(k, known) {
                    let y = stack[j];
                    known = value::more(pool, notice, k, x, known, y);
                    j = j + 1;
                }
                let r = value::decided(known);
                stack[i] = r;
                first = noted(first, next, r);
                depth = i + 1;
            }
            Group::Unknown => {}
        }
    }
    let at = (next - 10) / 12;
    Machine {
        next: at,
        depth,
        steps: at - passed,
        undecided: ending_at(first),
        stack,
    }
}

// "Running answers number, place, verdict (bottom if refused) and steps (0 if refused)." This is a run that is not refused; and the first undecided entry (document 02, request 7).
#[derive(Clone, Copy)]
pub struct Ran {
    pub verdict: Truth,
    pub steps: usize,
    pub undecided: u16,
}

// The same for a caller who has no starts: it makes them.
pub fn run_checked<'a>(table: &'a [u8], notice: &'a [u8], budget: usize) -> Machine
    requires { (check_of table.now ≡ true) × (noticeCheck notice.now ≡ Ok tt) }
    ensures { Visited table.now notice.now budget result }
{
    let mut starts: [u16; 64] = [0; 64];
    let _ = notice::index(notice, &mut starts);
    run_indexed(table, notice, &starts, budget)
}

// The whole run, with what `run_indexed` asks: "At N it ends and the one slot is the verdict."
pub fn run_whole<'a>(table: &'a [u8], notice: &'a [u8], starts: &[u16; 64]) -> Ran
    requires { (check_of table.now ≡ true) × (noticeCheck notice.now ≡ Ok tt) × Indexed notice.now starts.now }
    ensures { answered (Ok result) ≡ answer_of (decode table.now) notice.now }
{
    let n = table::count(table);
    let m = run_indexed(table, notice, starts, n);
    let slot = m.stack[0];
    let verdict = value::truth_in(slot);
    Ran {
        verdict: verdict,
        steps: m.steps,
        undecided: m.undecided,
    }
}

// The guarded run of a kept table, one that is known to pass the check, on any bytes as notice: 11 with its place if the notice check fails, else verdict and steps.
// The check is lent the notice as a part made anew: lent as it came, it would be copied right after it was stored, which the processor waits for.
pub fn run_kept<'a>(table: &'a [u8], notice: &'a [u8]) -> Result<Ran, Refusal>
    requires { check_of table.now ≡ true }
    ensures { answered result ≡ running_of table.now notice.now }
{
    let mut starts: [u16; 64] = [0; 64];
    notice::index(&notice[0..], &mut starts)?;
    Ok(run_whole(table, notice, &starts))
}

// The guarded run, for any bytes: 12 if the table check fails, else as of a kept table.
pub fn run<'a>(table: &'a [u8], notice: &'a [u8]) -> Result<Ran, Refusal>
    ensures { answered result ≡ running_of table.now notice.now }
{
    if !table::check(table) {
        return Err(Refusal::Table);
    }
    run_kept(table, notice)
}
