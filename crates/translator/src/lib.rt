// The translator: text to table. Document 01, "Table": "Translation is postfix."
#![tactic(auto)]

ghost use Rattle.std.specs.Prelude.{◌≡◌, ◌++◌, ◌+◌, ◌*◌, ◌≤◌, length};
ghost use Rattle.std.proofs.lemmas.List.Edits.{sets};
ghost use Rattle.word.specs.Word.{Bytes};
ghost use Rattle.table.specs.Table.{entries_bytes};
ghost use Rattle.translator.specs.Expand.{expand, pooled, Sized};
ghost use Rattle.translator.specs.Emit.{Room, Roomy, Tokened, Known, first_by, Coded, entry_start, table_answer, header_bytes};
ghost use Rattle.translator.specs.Translation.{translation_in, edition_named, translation_of, answered, Answers};

use opcode::Edition;
use postfix::Judged;
use read::Reading;
use refusal::Refusal;

mod entry;
mod operand;
pub mod read;
pub mod write;

// A text, and of its operands where each starts and how many bytes it brings to the pool.
#[derive(Clone, Copy)]
struct Operands<'a> {
    text: &'a [u8],
    places: &'a [u16],
    sizes: &'a [u16],
    ghost bytes: { Bytes text.now },
}

// "u32 length of all after it; u16 kind 2; u16 entry count N ..; u16 pool length ..", the kind by the edition.
fn put_header(edition: Edition, out: &mut [u8], entries: usize, pool: usize)
    requires { (entries ≤ 512) × (pool ≤ 4096) × (10 ≤ length out.old) }
    ensures { out.new ≡ sets out.old 0 (header_bytes edition entries pool) }
{
    word::write_u32(out, 0, (6 + 12 * entries + pool) as u32);
    word::write_u16(out, 4, table::kind(edition));
    word::write_u16(out, 6, entries as u16);
    word::write_u16(out, 8, pool as u16);
}

// The whole table: header, entries, pool. It asks for the pool's length.
fn put_table(edition: Edition, operands: Operands, codes: &[u16], pool: usize, out: &mut [u8])
    requires { (length codes.now ≤ 512) × (pool ≤ 4096) × (pool ≡ length (pooled operands.text.now operands.places.now codes.now 0)) × (entry_start (length codes.now) + pool ≤ length out.old) × Sized operands.text.now operands.places.now operands.sizes.now codes.now 0 }
    ensures { out.new ≡ sets out.old 0 (header_bytes edition (length codes.now) pool ++ (entries_bytes (expand operands.entry.text.now operands.entry.places.now codes.now 0 0) ++ pooled operands.entry.text.now operands.entry.places.now codes.now 0)) }
{
    put_header(edition, out, codes.len(), pool);
    write::write(operands.text, operands.places, operands.sizes, codes, out);
}

// Writes the table over the start of the buffer, once all is judged, and answers its length.
fn accepted(
    edition: Edition,
    operands: Operands,
    codes: &[u16],
    pool: usize,
    buffer: &mut [u8],
) -> Result<usize, Refusal>
    requires { (length codes.now ≤ 512) × (pool ≤ 4096) × (pool ≡ length (pooled operands.text.now operands.places.now codes.now 0)) × (entry_start (length codes.now) + pool ≤ length buffer.old) × Sized operands.text.now operands.places.now operands.sizes.now codes.now 0 }
    ensures value { answered result ≡ table_answer (length codes.now) pool }
    ensures buffer_after { buffer.new ≡ sets buffer.old 0 (header_bytes edition (length codes.now) pool ++ (entries_bytes (expand operands.entry.text.now operands.entry.places.now codes.now 0 0) ++ pooled operands.entry.text.now operands.entry.places.now codes.now 0)) }
{
    put_table(edition, operands, codes, pool, buffer);
    Ok(10 + 12 * codes.len() + pool)
}

// Of an expression to which none of 4, 18, 5, 7 and 8 applies: 9, or its table, written once all is judged.
fn coded(
    edition: Edition,
    operands: Operands,
    codes: &[u16],
    pool: usize,
    buffer: &mut [u8],
) -> Result<usize, Refusal>
    requires { Coded operands.text.now operands.places.now operands.sizes.now codes.now pool }
    ensures { Answers (translation_in edition operands.entry.text.now (length buffer.old)) buffer.old buffer.new (answered result) }
{
    let length = 10 + 12 * codes.len() + pool;
    if buffer.len() < length {
        return Err(Refusal::Buffer);
    }
    accepted(edition, operands, codes, pool, buffer)
}

// The first of the refusals 4, 18, 5, 7 and 8, if one applies.
fn judged(j: Judged, patterns: bool) -> Result<(), Refusal>
    ensures { result ≡ first_by j patterns }
{
    if !j.forms {
        return Err(Refusal::Call);
    }
    if !patterns {
        return Err(Refusal::Pattern);
    }
    if !(j.kinds & j.logic) {
        return Err(Refusal::Kind);
    }
    if 512 < j.entries {
        return Err(Refusal::Entries);
    }
    if 32 < j.depth {
        return Err(Refusal::Stack);
    }
    Ok(())
}

// Of an expression.
fn expression(
    edition: Edition,
    operands: Operands,
    codes: &[u16],
    buffer: &mut [u8],
    reading: Reading,
    j: Judged,
) -> Result<usize, Refusal>
    requires { Roomy (length operands.text.now) operands.places.now × Roomy (length operands.text.now) operands.sizes.now × Roomy (2 * length operands.text.now) codes.now × Known operands.text.now operands.places.now operands.sizes.now codes.now reading.operands reading.patterns j }
    ensures { Answers (translation_in edition operands.entry.text.now (length buffer.old)) buffer.old buffer.new (answered result) }
{
    judged(j, reading.patterns)?;
    let n = j.entries;
    let pool = write::pool_length(operands.sizes, reading.operands);
    coded(edition, operands, &codes[0..n], pool, buffer)
}

// Of the marks of a text's tokens.
fn tokens(
    edition: Edition,
    operands: Operands,
    marks: &[u8],
    codes: &mut [u16],
    buffer: &mut [u8],
    reading: Reading,
) -> Result<usize, Refusal>
    requires { Roomy (length operands.text.now) operands.places.now × Roomy (length operands.text.now) operands.sizes.now × Roomy (2 * length operands.text.now) codes.old × Tokened operands.text.now marks.now operands.places.now operands.sizes.now reading.operands reading.patterns }
    ensures { Answers (translation_in edition operands.entry.text.now (length buffer.old)) buffer.old buffer.new (answered result) }
{
    match postfix::parse(marks, codes) {
        Ok(j) => expression(edition, operands, codes, buffer, reading, j),
        Err(p) => Err(Refusal::Grammar(read::place(operands.text, p))),
    }
}

// With arrays of these lengths: an element for each token, operand and code that the text can have, as far as translation reads them.
fn translate_in<const TOKENS: usize, const OPERANDS: usize, const CODES: usize>(
    edition: Edition,
    text: &[u8],
    buffer: &mut [u8],
) -> Result<usize, Refusal>
    requires { (length text.now ≤ 4096 → length text.now ≤ TOKENS) × Room (length text.now) OPERANDS × Room (2 * length text.now) CODES × ((TOKENS ≤ 4096) × (OPERANDS ≤ 512) × (CODES ≤ 512)) }
    ensures { Answers (translation_in edition text.now (length buffer.old)) buffer.old buffer.new (answered result) }
{
    let mut array = [0u8; TOKENS];
    let marks = &mut array[..];
    let mut places = [0u16; OPERANDS];
    let mut sizes = [0u16; OPERANDS];
    let mut codes = [0u16; CODES];
    let reading = read::read(text, marks, &mut places, &mut sizes)?;
    let n = reading.tokens;
    let operands = Operands {
        text: text,
        places: &places,
        sizes: &sizes,
    };
    tokens(edition, operands, &marks[0..n], &mut codes, buffer, reading)
}

// Text to table of an edition. A refusal leaves every byte of the buffer as it was; a table stands at the buffer's start, and every later byte stays.
// A short text has short arrays, since every element of an array is set before it is used.
fn translate_edition(edition: Edition, text: &[u8], buffer: &mut [u8]) -> Result<usize, Refusal>
    ensures { Answers (translation_in edition text.now (length buffer.old)) buffer.old buffer.new (answered result) }
{
    if text.len() <= 64 {
        return translate_in::<64, 64, 128>(edition, text, buffer);
    }
    if text.len() <= 512 {
        return translate_in::<512, 512, 512>(edition, text, buffer);
    }
    translate_in::<4096, 512, 512>(edition, text, buffer)
}

// Request 9: "The caller names the edition when translating", 1 or 2.
fn named(number: usize) -> Result<Edition, Refusal>
    ensures { result ≡ edition_named number }
{
    match number {
        1 => Ok(Edition::First),
        2 => Ok(Edition::Second),
        _ => Err(Refusal::Edition),
    }
}

// Text to table of the edition named, and the table's length; "25 for an edition other than 1 or 2, before 10."
pub fn translate(edition: usize, text: &[u8], buffer: &mut [u8]) -> Result<usize, Refusal>
    ensures { Answers (translation_of edition text.now (length buffer.old)) buffer.old buffer.new (answered result) }
{
    let named = named(edition)?;
    translate_edition(named, text, buffer)
}
