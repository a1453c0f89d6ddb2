// What each record of standard input means, and the session that answers them over lent buffers, as functions on slices. Document 01, "Examples", the program `verdict`.
#![tactic(auto)]

ghost use Rattle.std.specs.Prelude.{◌≡◌, List, ℕ, ◌+◌, ◌-◌, ◌/◌, ◌≤◌, length, take};
ghost use Rattle.decimal.specs.Decimal.{Put};
ghost use Rattle.record.specs.Line.{line_room};
ghost use Rattle.interpreter.specs.Running.{answered, running_of};
ghost use Rattle.session.specs.Session.{ran_line, Sound};
ghost use Rattle.session.specs.Serving.{Answers, Serves, serving_of};
ghost use Rattle.session.specs.State.{first, Stands, Ready, next_of, Turns, MakesRoom, received_of};

use interpreter::Ran;
use record::Record;
use refusal::Refusal;
use truth::Truth;

// What a record leaves: the length of the table, 0 where there is none, and the place after the line.
#[derive(Drop)]
struct Answered {
    held: usize,
    next: usize,
}

// Kind 3, in the first edition. It asks for the kind, which the record reader found, and for room for a line.
fn answer_text(bytes: &[u8], table: &mut [u8], out: &mut [u8], at: usize) -> Answered
    requires { (6 ≤ length bytes.now) × (at + line_room ≤ length out.old) }
    ensures { (t : List ℕ) → Answers 3 bytes.now t table.old out.old at table.new out.new result }
{
    match translator::translate(1, &bytes[6..], table) {
        Ok(n) => Answered {
            held: n,
            next: record::put_text_line(out, at, 0, 0, n as u64),
        },
        Err(r) => Answered {
            held: 0,
            next: record::put_text_line(out, at, r.number() as u64, r.place() as u64, 0),
        },
    }
}

// The guarded run of the last text's table: an empty one fails the check, and any other that is kept passes it.
fn run_last<'a>(table: &'a [u8], notice: &'a [u8]) -> Result<Ran, Refusal>
    requires { Sound table.now }
    ensures { answered result ≡ running_of table.now notice.now }
{
    if table.len() == 0 {
        return interpreter::run(table, notice);
    }
    interpreter::run_kept(table, notice)
}

// Kind 1: the table on the notice. It asks for a table that is kept and for room for a line.
fn put_verdict<'a>(table: &'a [u8], notice: &'a [u8], out: &mut [u8], at: usize) -> usize
    requires { Sound table.now × (at + line_room ≤ length out.old) }
    ensures { Put out.old at (ran_line (running_of table.now notice.now)) out.new result × (result ≤ at + line_room) }
{
    match run_last(table, notice) {
        Ok(ran) => record::put_notice_line(
            out,
            at,
            0,
            ran.verdict,
            ran.steps as u64,
            0,
            ran.undecided as u64,
        ),
        Err(r) => record::put_notice_line(
            out,
            at,
            r.number() as u64,
            Truth::Bottom,
            0,
            r.place() as u64,
            65535,
        ),
    }
}

// What the whole record `bytes` of a kind means: the line is stored in `out` from `at` on, and a text's table in `table`, of which `held` bytes are the last text's.
// It asks for a record's length and kind, which the record reader found, for a sound table, and for room for a line.
fn answer(
    bytes: &[u8],
    kind: u16,
    table: &mut [u8],
    held: usize,
    out: &mut [u8],
    at: usize,
) -> Answered
    requires { (6 ≤ length bytes.now) × (held ≤ length table.old) × Sound (take held table.old) × (at + line_room ≤ length out.old) }
    ensures { Answers kind bytes.now (take held table.old) table.old out.old at table.new out.new result }
{
    if kind == 3 {
        return answer_text(bytes, table, out, at);
    }
    if kind == 1 {
        let next = put_verdict(&table[0..held], bytes, out, at);
        return Answered {
            held: held,
            next: next,
        };
    }
    let next = record::put_kind_line(out, at, kind as u64);
    Answered {
        held: held,
        next: next,
    }
}

// Why no more records were answered.
#[derive(Drop)]
enum Stop {
    // There is no room for another line.
    Full,
    // The next record has not come whole.
    Waiting,
    // "`E` and stops"
    Ended,
}

// What a stretch of the input leaves: the bytes of it that were answered, the length of the table, the bytes of the lines, and why no more were.
#[derive(Drop)]
struct Served {
    taken: usize,
    held: usize,
    written: usize,
    stop: Stop,
}

// Answers the records of a stretch of the input, as many as `out` has room for lines. `last`: the input ends with the stretch.
// It asks that the table lies in its buffer and is sound, as one that it left is, and as none is.
fn serve(input: &[u8], last: bool, table: &mut [u8], held: usize, out: &mut [u8]) -> Served
    requires { (held ≤ length table.old) × Sound (take held table.old) }
    ensures { Serves (serving_of (length out.old / line_room) last (take held table.old) table.old input.now) input.now out.old table.new out.new result }
{
    let mut at = 0;
    let mut size_held = held;
    let mut written = 0;
    for i in 0..out.len() / record::LINE_ROOM {
        let found = record::next_record(&input[at..]);
        if record::waits(found, last) {
            return Served {
                taken: at,
                held: size_held,
                written: written,
                stop: Stop::Waiting,
            };
        }
        let Record::Whole { kind, size } = found else {
            let end = record::put_error_line(out, written);
            return Served {
                taken: at,
                held: size_held,
                written: end,
                stop: Stop::Ended,
            };
        };
        let next = at + size;
        let done = answer(&input[at..next], kind, table, size_held, out, written);
        size_held = done.held;
        written = done.next;
        at = next;
    }
    Served {
        taken: at,
        held: size_held,
        written: written,
        stop: Stop::Full,
    }
}

// ---- a session over lent buffers: turns, and room for what is read

// What is done next.
#[derive(Clone, Copy)]
pub enum Next {
    // What is there is answered.
    Answer,
    // More is read.
    Read,
    // Nothing: the input has ended, or a record was wrong.
    Done,
}

// What is kept between the steps: where the bytes that are not answered yet stand in the input's buffer, the length of the table, that of the lines which the last turn left, whether the input has ended, and what is done next.
#[derive(Clone, Copy)]
pub struct State {
    pub from: usize,
    pub end: usize,
    pub held: usize,
    pub written: usize,
    pub last: bool,
    pub next: Next,
}

pub fn start() -> State
    ensures { result ≡ first }
{
    State {
        from: 0,
        end: 0,
        held: 0,
        written: 0,
        last: false,
        next: Next::Read,
    }
}

fn next_of(stop: Stop, last: bool) -> Next
    ensures { result ≡ next_of stop last }
{
    match stop {
        Stop::Full => Next::Answer,
        Stop::Waiting => if last { Next::Done } else { Next::Read },
        Stop::Ended => Next::Done,
    }
}

// Answers what is there, as far as `out` has room for lines. It asks that the state lies in its buffers and the table is sound, as `start` and every step leave them.
pub fn turn(input: &[u8], table: &mut [u8], out: &mut [u8], s: State) -> State
    requires { Ready input.now table.old s }
    ensures { Turns input.now table.old out.old s table.new out.new result }
{
    let from = s.from;
    let end = s.end;
    let last = s.last;
    let served = serve(&input[from..end], last, table, s.held, out);
    let stop = served.stop;
    State {
        from: from + served.taken,
        end: end,
        held: served.held,
        written: served.written,
        last: last,
        next: next_of(stop, last),
    }
}

// The lines that a turn left.
pub fn lines(out: &[u8], s: State) -> &[u8]
    requires { s.written ≤ length out.now }
    ensures { result.now ≡ take s.written out.now }
{
    let n = s.written;
    &out[0..n]
}

// Sees to room for a longest record behind what is not answered yet, which is moved to the buffer's start where there is none. In the program at least half of the buffer has been answered then, so each byte is moved seldom.
// It asks for a state that lies in its buffer and is to read.
pub fn make_room(input: &mut [u8], s: State) -> State
    requires { Stands input.old s × (s.next ≡ Next.Read) }
    ensures { MakesRoom input.old s input.new result }
{
    let from = s.from;
    let end = s.end;
    let next = s.next;
    if input.len() - end < 16384 {
        common::move_down(input, 0, from, end);
        return State {
            from: 0,
            end: end - from,
            held: s.held,
            written: s.written,
            last: s.last,
            next: next,
        };
    }
    s
}

// What one read brought.
#[derive(Drop)]
pub enum Brought {
    // The input reaches up to here; no further than before where it has ended.
    UpTo(usize),
    // Nothing yet: the read is repeated.
    Again,
}

// The state after a read behind what was there.
pub fn received(s: State, brought: Brought) -> State
    ensures { result ≡ received_of s brought }
{
    match brought {
        Brought::UpTo(end) => State {
            from: s.from,
            end: end,
            held: s.held,
            written: s.written,
            last: end == s.end,
            next: Next::Answer,
        },
        Brought::Again => s,
    }
}
