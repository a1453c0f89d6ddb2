// Entries: how each is made of its code, and how it is written into its own stretch of the table buffer.
ghost use Rattle.std.specs.Prelude.{◌≡◌, true, ◌+◌, ◌*◌, ◌≤◌, ◌<◌, length, get_or};
ghost use Rattle.std.proofs.lemmas.List.Edits.{sets};
ghost use Rattle.grammar.specs.Marks.{is_operand};
ghost use Rattle.grammar.specs.Stream.{token_of};
ghost use Rattle.table.specs.Table.{entry_bytes};
ghost use Rattle.translator.specs.Compile.{entry, leaf_entry, leaf_bytes};
ghost use Rattle.translator.specs.Emit.{entry_start};
ghost use Rattle.translator.specs.Expand.{op_in, a_in, pushes as pushesOf, brought_by, entry_by, SizedBy};

use crate::operand;
use grammar::stream;
use table::Entry;

// The entry, over the whole of a part of 12 bytes.
fn put_entry(part: &mut [u8], e: Entry)
    requires { length part.old ≡ 12 }
    ensures { part.new ≡ entry_bytes e }
{
    word::write_u16(part, 0, e.op);
    word::write_u16(part, 2, e.a);
    word::write_u64(part, 4, e.b);
}

// Lends the entry's own stretch of the buffer to the entry writer; every other byte stays.
pub fn put(out: &mut [u8], i: usize, e: Entry)
    requires { (i < 512) × (entry_start (i + 1) ≤ length out.old) }
    ensures { out.new ≡ sets out.old (entry_start i) (entry_bytes e) }
{
    let at = 10 + 12 * i;
    put_entry(&mut out[at..at + 12], e);
}

// Whether a code is a literal's or a name's.
pub fn pushes(c: u16) -> bool
    ensures { result ≡ pushesOf c }
{
    stream::is_operand((c % 64) as u8)
}

// The entry of an operator, a call or a skip, which its code has whole.
fn code_entry(c: u16) -> Entry
    ensures { result ≡ entry (op_in c) (a_in c) 0 }
{
    Entry {
        op: c % 64,
        a: c / 64,
        b: 0,
    }
}

// "a length, b pool offset"
fn part_entry(op: u8, len: usize, pool: usize) -> Entry
    requires { len ≤ 4096 }
    ensures { result ≡ entry op len pool }
{
    Entry {
        op: op as u16,
        a: len as u16,
        b: pool as u64,
    }
}

// "b: two's complement or bits"
fn literal_entry(op: u8, b: u64) -> Entry
    ensures { result ≡ entry op 0 b }
{
    Entry {
        op: op as u16,
        a: 0,
        b: b,
    }
}

// The entry that pushes the literal or name of a kind at a place of the text, of which n bytes stand in the pool from `pool` on.
fn leaf_entry(text: &[u8], op: u8, place: usize, n: usize, pool: usize) -> Entry
    requires { (is_operand op ≡ true) × (n ≡ length (leaf_bytes (token_of text.now op place))) × (n ≤ 4096) }
    ensures { result ≡ leaf_entry pool (token_of text.now op place) }
{
    if op == opcode::NAME {
        return part_entry(opcode::NAME, n, pool);
    }
    if op == opcode::TEXT {
        return part_entry(opcode::TEXT, n, pool);
    }
    if op == opcode::REAL64 {
        return literal_entry(
            opcode::REAL64,
            number::bits_of_real(lexer::real_value(text, place)),
        );
    }
    literal_entry(op, operand::int_bits(text, place))
}

// Writes the entry i, which is that of the code c, and what it brings to the pool, of which so many bytes stand behind `from`; answers how many bytes that is. The next operand is the operand `leaf`.
pub fn put_code(
    text: &[u8],
    c: u16,
    places: &[u16],
    sizes: &[u16],
    leaf: usize,
    out: &mut [u8],
    i: usize,
    from: usize,
    pool: usize,
) -> usize
    requires { (i < 512) × (entry_start (i + 1) ≤ from) × (from + pool + length (brought_by text.now c (get_or places.now leaf 0)) ≤ length out.old) × (length (brought_by text.now c (get_or places.now leaf 0)) ≤ 4096) × SizedBy text.now c (get_or places.now leaf 0) (get_or sizes.now leaf 0) }
    ensures value { result ≡ length (brought_by text.now c (get_or places.now leaf 0)) }
    ensures out_after { out.new ≡ sets (sets out.old (from + pool) (brought_by text.now c (get_or places.now leaf 0))) (entry_start i) (entry_bytes (entry_by text.now c (get_or places.now leaf 0) pool)) }
{
    if !pushes(c) {
        put(out, i, code_entry(c));
        return 0;
    }
    let op = (c % 64) as u8;
    let place = stream::start(places, leaf);
    let n = stream::start(sizes, leaf);
    operand::put_bytes(text, op, place, n, out, from + pool);
    put(out, i, leaf_entry(text, op, place, n, pool));
    n
}
