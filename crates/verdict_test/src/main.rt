// Prints for each standard input among the framed cases what `verdict` prints on it, in hex. The session gets it in small pieces, through a buffer that a long one fills many times.
#![tactic(auto)]

ghost use Rattle.std.specs.Prelude.{◌≡◌, ◌+◌, ◌≤◌, ◌<◌, length, IfOk, IfSome};
ghost use Rattle.session.specs.State.{Ready};
ghost use Rattle.verdict_test.specs.declared.Stage.{Stage};
ghost use Rattle.verdict_test.specs.Feeding.{Feeds};

use session::{Brought, Next, State};
use std::io;
use std::io::{Read, Write};

// Copies the next bytes of a case behind `end`, at most 97, and answers how many.
fn feed(bytes: &[u8], at: usize, input: &mut [u8], end: usize) -> usize
    requires { (at ≤ length bytes.now) × (end ≤ length input.old) }
    ensures { Feeds bytes.now at input.old end input.new result }
{
    let n = (bytes.len() - at).min(input.len() - end).min(97);
    input[end..end + n].copy_from_slice(&bytes[at..at + n]);
    n
}

// What the session has come to, and how much of the case it has got.
#[derive(Drop)]
struct Stage {
    state: State,
    at: usize,
}

fn read_on(bytes: &[u8], input: &mut [u8], table: &[u8], s: Stage) -> Stage
    requires { Ready input.old table.now s.state × (s.state.next ≡ Next.Read) × (s.at ≤ length bytes.now) }
    ensures { Ready input.new table.now result.state × (result.at ≤ length bytes.now) }
{
    let ready = session::make_room(input, s.state);
    let end = ready.end;
    let n = feed(bytes, s.at, input, end);
    Stage {
        state: session::received(ready, Brought::UpTo(end + n)),
        at: s.at + n,
    }
}

fn answer(
    to: &mut impl Write,
    input: &[u8],
    table: &mut [u8],
    out: &mut [u8],
    s: Stage,
) -> io::Result<Stage>
    requires { Ready input.now table.old s.state }
    ensures { IfOk result (λ r. Ready input.now table.new r.state × (r.at ≡ s.at)) }
{
    let state = session::turn(input, table, out, s.state);
    let lines = session::lines(out, state);
    if !lines.is_empty() {
        cases::print_hex(to, lines)?;
    }
    Ok(Stage { state, at: s.at })
}

// The stage after this one; none where the session is done.
fn step(
    to: &mut impl Write,
    bytes: &[u8],
    input: &mut [u8],
    table: &mut [u8],
    out: &mut [u8],
    s: Stage,
) -> io::Result<Option<Stage>>
    requires { Ready input.old table.old s.state × (s.at ≤ length bytes.now) }
    ensures { IfOk result (λ r. IfSome r (λ (n : Stage). Ready input.new table.new n.state × (n.at ≤ length bytes.now))) }
{
    match s.state.next {
        Next::Answer => Ok(Some(answer(to, input, table, out, s)?)),
        Next::Read => Ok(Some(read_on(bytes, input, table, s))),
        Next::Done => Ok(None),
    }
}

// Nothing says that a session ends, so the steps are counted.
fn serve(to: &mut impl Write, bytes: &[u8]) -> io::Result<()> {
    let mut input_space = [0u8; 20000];
    let mut table_space = [0u8; table::MOST_BYTES];
    let mut out_space = [0u8; 4096];
    let input: &mut [u8] = &mut input_space;
    let table: &mut [u8] = &mut table_space;
    let out: &mut [u8] = &mut out_space;
    let mut stage = Stage {
        state: session::start(),
        at: 0,
    };
    for _ in 0..1_000_000 {
        let Some(after) = step(to, bytes, input, table, out, stage)? else {
            break;
        };
        stage = after;
    }
    writeln!(to)
}

// One case. Answers whether there was one.
fn next_case(from: &mut impl Read, to: &mut impl Write) -> io::Result<bool> {
    let mut buffer = [0u8; 131072];
    let Some(n) = cases::next_part(from, &mut buffer)? else {
        return Ok(false);
    };
    serve(to, &buffer[..n])?;
    Ok(true)
}

fn main(rt: HostRuntime) -> io::Result<()> {
    cases::run(rt, |from, to| next_case(from, to))
}
