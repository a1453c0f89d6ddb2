// Translation, check and run together. Demand 3 is stated in specs/Demand.antt and proved in proofs/Demand.antt; `match_text` of matching.rt carries it.
// Here are the functions of the static library, which C and Rust call (include/virentolex.h); the crate router_c gives them to C.
// Each calls one function of the crates below, answers the refusal's number, 0 if nothing is refused, and stores what else there is to say through the references that it is lent.
#![tactic(auto)]

ghost use Rattle.std.specs.Prelude.{◌≡◌, cond, length};
ghost use Rattle.refusal.specs.Refusal.{number_of as refusal_number, place_of as refusal_place};
ghost use Rattle.truth.specs.Truth.{number_of as verdictNumber};
ghost use Rattle.translator.specs.Translation.{translation_of, Answers};
ghost use Rattle.table.specs.Check.{check_of as tableCheck, refusal_of};
ghost use Rattle.table.specs.Parts.{parts_of};
ghost use Rattle.notice.specs.Layout.{check_of as noticeCheck, number_of, place_of};
ghost use Rattle.notice.specs.Read.{Located};
ghost use Rattle.notice.specs.Search.{find_of};
ghost use Rattle.notice.specs.Write.{field, written_of, written_bytes};
ghost use Rattle.interpreter.specs.Running.{running_of};
ghost use Rattle.quorum.specs.Showing.{refused_number, refused_place, open_of, opened_bytes, show_of, shown_bytes, Gives};
ghost use Rattle.many.specs.Many.{many_of, many_bytes};
ghost use Rattle.many.specs.Held.{match_of, matched_bytes};
ghost use Rattle.ubf.specs.Answer.{read_answer, read_bytes, write_answer, write_bytes};
ghost use Rattle.mend.specs.Mend.{mended_of, list_after, notice_after};
ghost use Rattle.store.specs.Calls.{make_refusal, made_bytes, added_of, added_bytes, held_refusal, removed_bytes, part_of};

use refusal::Refusal;
use truth::Truth;

pub mod matching;

// Stores a refusal's place and answers its number.
fn refuse(r: Refusal, place: &mut usize) -> u8
    ensures number { result ≡ refusal_number r }
    ensures place_after { place.new ≡ refusal_place r }
{
    *place = r.place();
    r.number()
}

// The same of a refusal that may be none: number and place are 0 then.
fn tell(refusal: Option<Refusal>, place: &mut usize) -> u8
    ensures number { result ≡ refused_number refusal }
    ensures place_after { place.new ≡ refused_place refusal }
{
    match refusal {
        Some(r) => refuse(r, place),
        None => {
            *place = 0;
            0
        }
    }
}

// "Translation answers number, place and table length, 0 if refused.", in the edition that the caller names. A table stands at the buffer's start; a refusal changes no byte.
pub fn virentolex_translate(
    edition: usize,
    text: &[u8],
    buffer: &mut [u8],
    place: &mut usize,
    len: &mut usize,
) -> u8
    ensures { Answers (translation_of edition text.now (length buffer.old)) buffer.old buffer.new (record { number = result; place = place.new; length = len.new }) }
{
    match translator::translate(edition, text, buffer) {
        Ok(n) => {
            *place = 0;
            *len = n;
            0
        }
        Err(r) => {
            *len = 0;
            refuse(r, place)
        }
    }
}

// "12 | table fails layout or check"
pub fn virentolex_check(table: &[u8]) -> u8
    ensures { result ≡ refusal_of (tableCheck table.now) }
{
    if table::check(table) { 0 } else { 12 }
}

// "11 | notice fails layout", with its place.
pub fn virentolex_check_notice(notice: &[u8], place: &mut usize) -> u8
    ensures value { result ≡ number_of (noticeCheck notice.now) }
    ensures place_after { place.new ≡ place_of (noticeCheck notice.now) }
{
    match notice::check(notice) {
        Ok(()) => {
            *place = 0;
            0
        }
        Err(r) => refuse(r, place),
    }
}

// "Running answers number, place, verdict (bottom if refused) and steps (0 if refused)." A verdict is false 0, true 1, bottom 2. Request 7: `undecided` is the first entry that left bottom on the stack, 65535 for none.
pub fn virentolex_run<'a>(
    table: &'a [u8],
    notice: &'a [u8],
    place: &mut usize,
    verdict: &mut u8,
    steps: &mut usize,
    undecided: &mut u16,
) -> u8
    ensures value { result ≡ (running_of table.now notice.now).number }
    ensures place_after { place.new ≡ (running_of table.now notice.now).place }
    ensures verdict_after { verdict.new ≡ verdictNumber (running_of table.now notice.now).verdict }
    ensures steps_after { steps.new ≡ (running_of table.now notice.now).steps }
    ensures undecided_after { undecided.new ≡ (running_of table.now notice.now).undecided }
{
    match interpreter::run(table, notice) {
        Ok(ran) => {
            *place = 0;
            *verdict = u8::from(ran.verdict);
            *steps = ran.steps;
            *undecided = ran.undecided;
            0
        }
        Err(r) => {
            *verdict = u8::from(Truth::Bottom);
            *steps = 0;
            *undecided = 65535;
            refuse(r, place)
        }
    }
}

// Request 7, for support staff: what the entry k of a table is, and for a string or a name its bytes, from `start` to `end` of the table. 12 if the table fails its check, 17 if it has no entry k.
pub fn virentolex_entry(
    table: &[u8],
    k: usize,
    op: &mut u16,
    a: &mut u16,
    b: &mut u64,
    start: &mut usize,
    end: &mut usize,
) -> u8
    ensures { record { number = result; op = op.new; a = a.new; b = b.new; start = start.new; end = end.new } ≡ parts_of table.now k }
{
    match table::parts_of(table, k) {
        Ok(p) => {
            *op = p.op;
            *a = p.a;
            *b = p.b;
            *start = p.start;
            *end = p.end;
            0
        }
        Err(r) => {
            *op = 0;
            *a = 0;
            *b = 0;
            *start = 0;
            *end = 0;
            r.number()
        }
    }
}

// "Reading field k gives its kind and its name and value as parts of the lent notice": the name from `name` to `value`, the value from there to `end`.
pub fn virentolex_read(
    notice: &[u8],
    k: usize,
    place: &mut usize,
    kind: &mut u16,
    name: &mut usize,
    value: &mut usize,
    end: &mut usize,
) -> u8
    ensures { Located notice.now k (record { number = result; place = place.new; kind = kind.new; name = name.new; value = value.new; end = end.new }) }
{
    match notice::locate(notice, k) {
        Ok(p) => {
            *place = 0;
            *kind = p.kind;
            *name = p.name;
            *value = p.value;
            *end = p.end;
            0
        }
        Err(r) => {
            *kind = 0;
            *name = 0;
            *value = 0;
            *end = 0;
            refuse(r, place)
        }
    }
}

// "it finds what a walk over all fields finds. Beside that it answers how many names it looked at": the field's index, 64 if there is no such field. "in a notice found well-formed": 11 with its place otherwise.
pub fn virentolex_find(
    notice: &[u8],
    name: &[u8],
    place: &mut usize,
    index: &mut usize,
    looked: &mut usize,
) -> u8
    ensures { record { number = result; place = place.new; index = index.new; looked = looked.new } ≡ find_of notice.now name.now }
{
    match notice::find(notice, name) {
        Ok(s) => {
            *place = 0;
            *index = s.index.unwrap_or(64);
            *looked = s.looked;
            0
        }
        Err(r) => {
            *index = 64;
            *looked = 0;
            refuse(r, place)
        }
    }
}

// "writing answers number, place and the new length, or the old one if refused": `len` is the length that the caller names, `total` the answered one. A refusal changes no byte.
pub fn virentolex_write(
    buffer: &mut [u8],
    len: usize,
    name: &[u8],
    kind: u16,
    value: &[u8],
    place: &mut usize,
    total: &mut usize,
) -> u8
    ensures total_after { record { number = result; place = place.new; len = total.new } ≡ written_of buffer.old len (field kind name.now value.now) }
    ensures buffer_after { buffer.new ≡ written_bytes buffer.old len (field kind name.now value.now) }
{
    match notice::write(buffer, len, name, kind, value) {
        Ok(n) => {
            *place = 0;
            *total = n;
            0
        }
        Err(r) => {
            *total = len;
            refuse(r, place)
        }
    }
}

// Reached is 1, and 0 if not.
fn flag(b: bool) -> u8
    ensures { result ≡ cond b 1 0 }
{
    if b { 1 } else { 0 }
}

// "A decision is opened with a table, which it keeps, and a needed number of 1 to 8 people." The decision stands at the buffer's start; a refusal changes no byte.
pub fn virentolex_quorum_open(
    decision: &mut [u8],
    table: &[u8],
    needed: usize,
    place: &mut usize,
    count: &mut u8,
    reached: &mut u8,
    undecided: &mut u16,
) -> u8
    ensures gives { Gives (open_of decision.old table.now needed) result place.new count.new reached.new undecided.new }
    ensures decision_after { decision.new ≡ opened_bytes decision.old table.now needed }
{
    let a = quorum::open(decision, table, needed);
    *count = a.count;
    *reached = flag(a.reached);
    *undecided = a.undecided;
    tell(a.refusal, place)
}

// "The answer is the count and whether it has reached the needed number.", and the run's first undecided entry, which the counter "passes .. on". A refusal changes no byte.
pub fn virentolex_quorum_show(
    decision: &mut [u8],
    notice: &[u8],
    place: &mut usize,
    count: &mut u8,
    reached: &mut u8,
    undecided: &mut u16,
) -> u8
    ensures gives { Gives (show_of decision.old notice.now) result place.new count.new reached.new undecided.new }
    ensures decision_after { decision.new ≡ shown_bytes decision.old notice.now }
{
    let a = quorum::show(decision, notice);
    *count = a.count;
    *reached = flag(a.reached);
    *undecided = a.undecided;
    tell(a.refusal, place)
}

// "reading into our notice, with fields put in name order": the notice that a UBF(A) text says, at the buffer's start. A refusal changes no byte.
pub fn virentolex_ubf_read(text: &[u8], notice: &mut [u8], place: &mut usize, len: &mut usize) -> u8
    ensures len_after { record { number = result; place = place.new; len = len.new } ≡ read_answer text.now notice.old }
    ensures notice_after { notice.new ≡ read_bytes text.now notice.old }
{
    match ubf::read(text, notice) {
        Ok(n) => {
            *place = 0;
            *len = n;
            0
        }
        Err(r) => {
            *place = r.place();
            *len = 0;
            r.number()
        }
    }
}

// "writing back in one fixed form": the UBF(A) text of a notice, at the buffer's start. A refusal changes no byte.
pub fn virentolex_ubf_write(
    notice: &[u8],
    text: &mut [u8],
    place: &mut usize,
    len: &mut usize,
) -> u8
    ensures len_after { record { number = result; place = place.new; len = len.new } ≡ write_answer notice.now text.old }
    ensures text_after { text.new ≡ write_bytes notice.now text.old }
{
    match ubf::write(notice, text) {
        Ok(n) => {
            *place = 0;
            *len = n;
            0
        }
        Err(r) => {
            *place = r.place();
            *len = 0;
            r.number()
        }
    }
}

// "A single call shall take up to 64 tables laid end to end and one notice, and write per table one byte: 0 false, 1 true, 2 bottom, 3 table refused." A refusal changes no byte.
pub fn virentolex_run_many<'a>(
    tables: &'a [u8],
    notice: &'a [u8],
    verdicts: &mut [u8],
    place: &mut usize,
    count: &mut usize,
) -> u8
    ensures count_after { record { number = result; place = place.new; count = count.new } ≡ many_of tables.now notice.now (length verdicts.old) }
    ensures verdicts_after { verdicts.new ≡ many_bytes tables.now notice.now verdicts.old }
{
    match many::run_many(tables, notice, verdicts) {
        Ok(n) => {
            *place = 0;
            *count = n;
            0
        }
        Err(r) => {
            *count = 0;
            refuse(r, place)
        }
    }
}

// "a standing store in one lent buffer of at most 64 KiB: make it empty". A refusal changes no byte.
pub fn virentolex_store_make(store: &mut [u8]) -> u8
    ensures value { result ≡ make_refusal store.old }
    ensures store_after { store.new ≡ made_bytes store.old }
{
    match store::make(store) {
        Ok(()) => 0,
        Err(r) => r.number(),
    }
}

// "add a table and get the lowest free number 0..63"; "Refused, add answers 64". A refusal changes no byte.
pub fn virentolex_store_add(store: &mut [u8], table: &[u8], number: &mut usize) -> u8
    ensures number_after { record { refusal = result; number = number.new } ≡ added_of store.old table.now }
    ensures store_after { store.new ≡ added_bytes store.old table.now }
{
    match store::add(store, table) {
        Ok(n) => {
            *number = n;
            0
        }
        Err(r) => {
            *number = 64;
            r.number()
        }
    }
}

// "remove by number". A refusal changes no byte.
pub fn virentolex_store_remove(store: &mut [u8], number: usize) -> u8
    ensures value { result ≡ held_refusal store.old number }
    ensures store_after { store.new ≡ removed_bytes store.old number }
{
    match store::remove(store, number) {
        Ok(()) => 0,
        Err(r) => r.number(),
    }
}

// "fetch by number as a part of the buffer": the table is the bytes from `start` to `end`, both 0 if refused.
pub fn virentolex_store_fetch(store: &[u8], number: usize, start: &mut usize, end: &mut usize) -> u8
    ensures { record { refusal = result; start = start.new; end = end.new } ≡ part_of store.now number }
{
    match store::find(store, number) {
        Ok(part) => {
            *start = part.start;
            *end = part.end;
            0
        }
        Err(r) => {
            *start = 0;
            *end = 0;
            r.number()
        }
    }
}

// Every table that a store holds on one notice, one byte by number: 0 false, 1 true, 2 bottom, 3 table refused, 4 for a free place. A refusal changes no byte.
pub fn virentolex_store_match<'a>(
    store: &'a [u8],
    notice: &'a [u8],
    verdicts: &mut [u8],
    place: &mut usize,
) -> u8
    ensures place_after { record { number = result; place = place.new } ≡ match_of store.now notice.now (length verdicts.old) }
    ensures verdicts_after { verdicts.new ≡ matched_bytes store.now notice.now verdicts.old }
{
    match many::match_store(store, notice, verdicts) {
        Ok(()) => {
            *place = 0;
            0
        }
        Err(r) => refuse(r, place),
    }
}

// "A tool takes such bytes, .. keeps each field that is right by itself and whose name was not kept before, and writes a well-formed notice": the notice at its buffer's start,
// and in the list's 3 bytes a field, u16 offset and 0 kept, 1 moved, 2 repeated, 3 bad, 4 cut. A refusal changes no byte.
pub fn virentolex_mend(
    bytes: &[u8],
    list: &mut [u8],
    notice: &mut [u8],
    place: &mut usize,
    len: &mut usize,
    fields: &mut usize,
) -> u8
    ensures fields_after { record { number = result; place = place.new; length = len.new; fields = fields.new } ≡ mended_of bytes.now (length list.old) (length notice.old) }
    ensures list_after { list.new ≡ list_after bytes.now list.old notice.old }
    ensures notice_after { notice.new ≡ notice_after bytes.now list.old notice.old }
{
    match mend::mend(bytes, list, notice) {
        Ok(m) => {
            *place = 0;
            *len = m.length;
            *fields = m.fields;
            0
        }
        Err(r) => {
            *len = 0;
            *fields = 0;
            refuse(r, place)
        }
    }
}
