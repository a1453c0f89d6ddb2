// Text, buffer and notice in, verdict and steps out: the function that carries demand 3 of the customer's letter.
ghost use Rattle.router.specs.Demand.{RunsChecked, RunsTable, Matches, refused as refusedWith};
ghost use Rattle.translator.specs.Translation.{translation_of};
ghost use Rattle.notice.specs.Layout.{check_of as noticeCheck};
ghost use Rattle.std.specs.Prelude.{◌≡◌, length};

use interpreter::Machine;
use truth::Truth;
use value::{Held, Slot};

// Number and place of the first refusal, of the notice, of translation or of the check; the table's length, 0 if there is none; verdict and steps; the first undecided entry (document 02, request 7); and the runner's machine after as many visits as the caller names.
#[derive(Drop)]
pub struct Matched {
    pub number: u8,
    pub place: usize,
    pub length: usize,
    pub verdict: Truth,
    pub steps: usize,
    pub undecided: u16,
    pub machine: Machine,
}

// "The run starts at entry 0 with an empty stack", and where something is refused it makes no visit.
fn refused(number: u8, place: usize) -> Matched
    ensures { result ≡ refusedWith number place }
{
    let stack = [Slot {
        held: Held::Logic(Truth::False),
    }; 32];
    let machine = Machine {
        next: 0,
        depth: 0,
        steps: 0,
        undecided: 65535,
        stack: stack,
    };
    Matched {
        number: number,
        place: place,
        length: 0,
        verdict: Truth::Bottom,
        steps: 0,
        undecided: 65535,
        machine: machine,
    }
}

// Checks a table and runs it on the notice; beside the whole run's answer stands the runner's machine after `visits` visits. It asks for a notice found well-formed, as `run_checked` does.
fn check_and_run<'a>(table: &'a [u8], notice: &'a [u8], visits: usize) -> Matched
    requires { noticeCheck notice.now ≡ Ok tt }
    ensures { RunsChecked table.now notice.now visits result }
{
    if !table::check(table) {
        return refused(12, 0);
    }
    match interpreter::run(table, notice) {
        Ok(ran) => Matched {
            number: 0,
            place: 0,
            length: table.len(),
            verdict: ran.verdict,
            steps: ran.steps,
            undecided: ran.undecided,
            machine: interpreter::run_checked(table, notice, visits),
        },
        Err(r) => refused(r.number(), r.place()),
    }
}

// Translates the text into the buffer in the edition named, then checks the table, of the length that translation answers, and runs it on the notice. It asks for a notice found well-formed.
fn translate_and_run(
    edition: usize,
    text: &[u8],
    buffer: &mut [u8],
    notice: &[u8],
    visits: usize,
) -> Matched
    requires { noticeCheck notice.now ≡ Ok tt }
    ensures { RunsTable (translation_of edition text.now (length buffer.old)) buffer.old notice.now buffer.new visits result }
{
    match translator::translate(edition, text, buffer) {
        Ok(end) => check_and_run(&buffer[0..end], notice, visits),
        Err(r) => refused(r.number(), r.place()),
    }
}

// Judges the notice, then translates the text into the buffer in the edition named, checks the table and runs it on the notice. A refusal leaves every byte of the buffer as it was; a table stands at the buffer's start, and every later byte stays.
// `visits` is the number of visits after which the runner's machine is answered; where something is refused it is a machine that made none.
pub fn match_text(
    edition: usize,
    text: &[u8],
    buffer: &mut [u8],
    notice: &[u8],
    visits: usize,
) -> Matched
    ensures { Matches edition text.now buffer.old notice.now buffer.new visits result }
{
    let layout = notice::check(notice);
    match layout {
        Ok(()) => translate_and_run(edition, text, buffer, notice, visits),
        Err(r) => refused(r.number(), r.place()),
    }
}
