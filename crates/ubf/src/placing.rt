// Storing the notice: the spans in their order as fields, after the header.
ghost use Rattle.std.specs.Prelude.{◌≡◌, true, ◌+◌, ◌≤◌, ltb, length};
ghost use Rattle.std.proofs.lemmas.List.Edits.{sets};
ghost use Rattle.decimal.specs.Decimal.{Put};
ghost use Rattle.notice.specs.Render.{field_bytes, fields_bytes, render};
ghost use Rattle.ubf.specs.Escape.{bytes_in, Plain};
ghost use Rattle.ubf.specs.Answer.{notice_size, leaves};
ghost use Rattle.ubf.specs.Span.{PartIn, SpanIn, value_in, field_in, ordered, Placing};

use crate::scanning::byte_place;
use crate::spans::{Span, span_at};
use crate::words::plain_to;

// Where the run from `at` on ends in which no byte has an escape, of n bytes at most.
fn run_end(text: &[u8], at: usize, n: usize) -> usize
    requires { at + n ≤ length text.now }
    ensures { (at ≤ result) × (result ≤ at + n) × Plain text.now 34 at result }
{
    let end = plain_to(text, at, b'"');
    if at + n < end {
        return at + n;
    }
    end
}

// Stores n bytes that stand in the text from `from` on with escapes, run by run.
fn put_unescaped(buffer: &mut [u8], at: usize, text: &[u8], from: usize, n: usize)
    requires { PartIn text.now from n true × (at + n ≤ length buffer.old) }
    ensures { buffer.new ≡ sets buffer.old at (bytes_in text.now from n true) }
{
    let mut i = from;
    let mut k = 0;
    while k < n {
        let end = run_end(text, i, n - k);
        common::copy_to(buffer, at + k, &text[i..end]);
        k = k + (end - i);
        if k == n {
            return;
        }
        let j = byte_place(text, end, true);
        buffer[at + k] = text[j];
        i = j + 1;
        k += 1;
    }
}

fn put_part(buffer: &mut [u8], at: usize, text: &[u8], from: usize, n: usize, escapes: usize)
    requires { PartIn text.now from n (ltb 0 escapes) × (at + n ≤ length buffer.old) }
    ensures { buffer.new ≡ sets buffer.old at (bytes_in text.now from n (ltb 0 escapes)) }
{
    if escapes != 0 {
        put_unescaped(buffer, at, text, from, n);
        return;
    }
    let end = from + n;
    common::copy_to(buffer, at, &text[from..end]);
}

fn put_data(buffer: &mut [u8], at: usize, text: &[u8], s: Span)
    requires { SpanIn text.now s × (at + s.len ≤ length buffer.old) }
    ensures { buffer.new ≡ sets buffer.old at (value_in text.now s.kind s.value s.len (ltb 0 s.escapes)) }
{
    if s.kind == 1 {
        word::write_u32(buffer, at, s.value as u32);
        return;
    }
    if s.kind == 2 {
        word::write_u64(buffer, at, s.value as u64);
        return;
    }
    // told here too, so that what has no escapes is copied with no call
    if s.escapes != 0 {
        put_unescaped(buffer, at, text, s.value, s.len);
        return;
    }
    put_part(buffer, at, text, s.value, s.len, 0);
}

fn put_span(buffer: &mut [u8], at: usize, text: &[u8], s: Span) -> usize
    requires { SpanIn text.now s × (s.namelen ≤ 64) × (s.len ≤ 1024) × (at + 5 + s.namelen + s.len ≤ length buffer.old) }
    ensures { Put buffer.old at (field_bytes (field_in text.now s)) buffer.new result }
{
    word::write_u16(buffer, at, (3 + s.namelen + s.len) as u16);
    word::write_u16(buffer, at + 2, s.kind as u16);
    let n = s.namelen;
    buffer[at + 4] = n as u8;
    put_part(buffer, at + 5, text, s.name, s.namelen, s.nameescapes);
    put_data(buffer, at + 5 + s.namelen, text, s);
    at + 5 + s.namelen + s.len
}

// The fields, in the order that stands at the end of its room.
fn put_spans(buffer: &mut [u8], text: &[u8], rows: &[usize], order: &[u8], count: usize)
    requires { Placing text.now rows.now order.now count (notice_size (ordered text.now rows.now count order.now)) (length buffer.old) }
    ensures { buffer.new ≡ sets buffer.old 8 (fields_bytes (ordered text.now rows.now count order.now)) }
{
    let mut at = 8;
    let mut k = 64 - count;
    while k < 64 {
        at = put_span(buffer, at, text, span_at(rows, order[k] as usize));
        k += 1;
    }
}

pub(crate) fn put_notice(
    buffer: &mut [u8],
    text: &[u8],
    rows: &[usize],
    order: &[u8],
    count: usize,
    size: usize,
)
    requires { Placing text.now rows.now order.now count size (length buffer.old) }
    ensures { buffer.new ≡ leaves 0 (render (ordered text.now rows.now count order.now)) buffer.old }
{
    word::write_u32(buffer, 0, (size - 4) as u32);
    word::write_u16(buffer, 4, 1);
    word::write_u16(buffer, 6, count as u16);
    put_spans(buffer, text, rows, order, count);
}
