// The program `verdict`. Document 01, "Examples": "reads records (u32 length, u16 kind) from standard input". Only reading and writing is here; what is answered is `session::turn`.
#![tactic(auto)]

ghost use Rattle.std.specs.Prelude.{false, ◌≡◌, ℕ, ◌+◌, ◌^◌, ◌<◌, Ok, IfOk, length};
ghost use Rattle.session.specs.State.{Stands, Ready, Reads};
ghost use Rattle.verdict.specs.Reading.{answer_of, BroughtBy};
ghost use Rattle.verdict.specs.Going.{Answered, ReadOn, state_of, Goes};

use session::{Brought, Next, State};
use std::io;
use std::io::ErrorKind;
use std::ops::ControlFlow;

// Whether a read is repeated: it failed since a signal came first, or since nothing had come and standard input does not wait. Then it is asked again at once, since nothing here can wait for more.
fn is_repeated(got: &io::Result<usize>) -> bool
    ensures { (n : ℕ) → got.now ≡ Ok n → result ≡ false }
{
    match got {
        Ok(_) => false,
        Err(e) => matches!(e.kind(), ErrorKind::Interrupted | ErrorKind::WouldBlock),
    }
}

// What the answer of a read behind `end` means. Any other failure counts as the end of the input, since nothing more can come.
fn brought(got: io::Result<usize>, end: usize) -> Brought
    requires { IfOk got (λ n. end + n < 2 ^ 64) }
    ensures { BroughtBy (answer_of got) end result }
{
    if is_repeated(&got) {
        return Brought::Again;
    }
    match got {
        Ok(n) => Brought::UpTo(end + n),
        Err(_) => Brought::UpTo(end),
    }
}

// Reads once, to the buffer's end from `end` on. No contract can say which bytes come.
fn read_on(from: &mut impl io::Read, input: &mut [u8], end: usize) -> Brought
    requires { end < length input.old }
    ensures { Reads input.old end input.new result }
{
    let got = from.read(&mut input[end..]);
    brought(got, end)
}

// Reads behind what is not answered yet.
fn more(from: &mut impl io::Read, input: &mut [u8], s: State) -> State
    requires { Stands input.old s × (s.next ≡ Next.Read) }
    ensures { ReadOn input.old s input.new result }
{
    let ready = session::make_room(input, s);
    let came = read_on(from, input, ready.end);
    session::received(ready, came)
}

// Answers what is there and writes the lines. Nothing is left to do where they cannot be written.
fn answer(
    to: &mut impl io::Write,
    input: &[u8],
    table: &mut [u8],
    out: &mut [u8],
    s: State,
) -> ControlFlow<State, State>
    requires { Ready input.now table.old s × (s.next ≡ Next.Answer) }
    ensures { Answered input.now table.old s table.new out.new (state_of result) }
{
    let after = session::turn(input, table, out, s);
    match to.write_all(session::lines(out, after)) {
        Ok(()) => ControlFlow::Continue(after),
        Err(_) => ControlFlow::Break(after),
    }
}

// What the state asks for. The program goes on with the state after it, or stops.
fn step(
    from: &mut impl io::Read,
    to: &mut impl io::Write,
    input: &mut [u8],
    table: &mut [u8],
    out: &mut [u8],
    s: State,
) -> ControlFlow<State, State>
    requires { Ready input.old table.old s }
    ensures { Goes input.old table.old s input.new table.new (state_of result) }
{
    match s.next {
        Next::Answer => answer(to, input, table, out, s),
        Next::Read => ControlFlow::Continue(more(from, input, s)),
        Next::Done => ControlFlow::Break(s),
    }
}

// Nothing says that the input ends, so the steps are counted, up to a number that no run uses up.
fn main(rt: HostRuntime) {
    let mut from = rt.stdin();
    let mut to = rt.stdout();
    let mut input_space = [0u8; 65536];
    let mut table_space = [0u8; table::MOST_BYTES];
    let mut out_space = [0u8; 65536];
    let input: &mut [u8] = &mut input_space;
    let table: &mut [u8] = &mut table_space;
    let out: &mut [u8] = &mut out_space;
    let mut state = session::start();
    for _ in 0..u64::MAX {
        match step(&mut from, &mut to, input, table, out, state) {
            ControlFlow::Continue(after) => state = after,
            ControlFlow::Break(_) => break,
        }
    }
}
