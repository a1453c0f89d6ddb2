// One notice, many subscriptions. Document 02, request 8.
#![tactic(auto)]

ghost use Rattle.std.specs.Prelude.{◌≡◌, Ok, ◌≤◌, ◌<◌, length, MatchOption};
ghost use Rattle.notice.specs.Layout.{check_of as noticeCheck, Indexed};
ghost use Rattle.interpreter.specs.Running.{running_of};
ghost use Rattle.many.specs.Many.{extent_of, stretches_of, verdict_byte, verdicts_of, delivered, Delivers};

mod held;

pub use held::match_store;
use refusal::Refusal;

// The byte of a table that fails its check.
const REFUSED: u8 = 3;

// How long the first table is: "A table's extent is taken from its length word; if that passes the end, or 1 to 3 bytes are left, the remainder counts as one refused table."
fn extent(tables: &[u8]) -> usize
    ensures { (result ≡ extent_of tables.now) × (result ≤ length tables.now) }
{
    if tables.len() < 4 {
        return tables.len();
    }
    let size = 4 + word::read_u32(tables, 0) as usize;
    size.min(tables.len())
}

// How many tables there are, unless there are more than 64.
fn count(tables: &[u8]) -> Option<usize>
    ensures { MatchOption result (64 < length (stretches_of tables.now)) (λ n. (n ≡ length (stretches_of tables.now)) × (n ≤ 64)) }
{
    let mut rest = tables;
    for n in 0..65 {
        if rest.is_empty() {
            return Some(n);
        }
        rest = rest.split_at(extent(rest)).1;
    }
    None
}

// The verdict byte of one table: 3 if it fails its check, else that of its run. It asks for a notice found well-formed and the starts of its fields.
fn verdict<'a>(table: &'a [u8], notice: &'a [u8], starts: &[u16; 64]) -> u8
    requires { (noticeCheck notice.now ≡ Ok tt) × Indexed notice.now starts.now }
    ensures { result ≡ verdict_byte (running_of table.now notice.now) }
{
    if !table::check(table) {
        return REFUSED;
    }
    let ran = interpreter::run_whole(table, notice, starts);
    u8::from(ran.verdict)
}

// The verdicts of the tables, one after the other, in a buffer of one byte for each.
fn deliver<'a>(tables: &'a [u8], notice: &'a [u8], starts: &[u16; 64], verdicts: &mut [u8])
    requires { (noticeCheck notice.now ≡ Ok tt) × Indexed notice.now starts.now × (length verdicts.old ≡ length (stretches_of tables.now)) }
    ensures { verdicts.new ≡ verdicts_of tables.now notice.now }
{
    let mut rest = tables;
    for byte in verdicts.iter_mut() {
        let (table, after) = rest.split_at(extent(rest));
        *byte = verdict(table, notice, starts);
        rest = after;
    }
}

// "A single call shall take up to 64 tables laid end to end and one notice, and write per table one byte". The notice is checked once.
// How many bytes are written, or 11 with its place, 24 for over 64, 9 if the verdict buffer is short. A refusal changes no byte.
pub fn run_many<'a>(
    tables: &'a [u8],
    notice: &'a [u8],
    verdicts: &mut [u8],
) -> Result<usize, Refusal>
    ensures { Delivers tables.now notice.now verdicts.old verdicts.new (delivered result) }
{
    let mut starts: [u16; 64] = [0; 64];
    notice::index(notice, &mut starts)?;
    let Some(n) = count(tables) else {
        return Err(Refusal::Tables);
    };
    if verdicts.len() < n {
        return Err(Refusal::Buffer);
    }
    deliver(tables, notice, &starts, &mut verdicts[..n]);
    Ok(n)
}
