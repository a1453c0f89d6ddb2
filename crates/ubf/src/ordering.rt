// Spans in the order of their names: "with fields put in name order".
ghost use Rattle.std.specs.Prelude.{◌≡◌, ◌+◌, ◌≤◌, length, drop};
ghost use Rattle.common.specs.Each.{Each};
ghost use Rattle.octets.specs.Octets.{same_of, before_of};
ghost use Rattle.notice.specs.Write.{has_name, place_among};
ghost use Rattle.ubf.specs.Span.{name_in, SpanIn, spans_in, row_fields, Rising, ArrangedIs};

use crate::scanning::byte_place;
use crate::spans::{Span, span_at};

// Whether the name of span s is before that of span t, byte by byte, where one has escapes.
fn escaped_before(text: &[u8], s: Span, t: Span) -> bool
    requires { SpanIn text.now s × SpanIn text.now t }
    ensures { result ≡ before_of (name_in text.now s) (name_in text.now t) }
{
    let mut i = s.name;
    let mut left = s.namelen;
    let mut j = t.name;
    let mut other = t.namelen;
    while (0 < left) & (0 < other) {
        let k = byte_place(text, i, s.nameescapes != 0);
        let l = byte_place(text, j, t.nameescapes != 0);
        if text[k] != text[l] {
            return text[k] < text[l];
        }
        i = k + 1;
        left -= 1;
        j = l + 1;
        other -= 1;
    }
    left < other
}

pub(crate) fn name_before(text: &[u8], s: Span, t: Span) -> bool
    requires { SpanIn text.now s × SpanIn text.now t }
    ensures { result ≡ before_of (name_in text.now s) (name_in text.now t) }
{
    if (s.nameescapes != 0) | (t.nameescapes != 0) {
        return escaped_before(text, s, t);
    }
    let i = s.name;
    let j = i + s.namelen;
    let k = t.name;
    let l = k + t.namelen;
    octets::before(&text[i..j], false, &text[k..l], false)
}

pub(crate) fn name_same(text: &[u8], s: Span, t: Span) -> bool
    requires { SpanIn text.now s × SpanIn text.now t }
    ensures { result ≡ same_of (name_in text.now s) (name_in text.now t) }
{
    if (s.nameescapes != 0) | (t.nameescapes != 0) {
        return !name_before(text, s, t) & !name_before(text, t, s);
    }
    let i = s.name;
    let j = i + s.namelen;
    let k = t.name;
    let l = k + t.namelen;
    octets::same(&text[i..j], false, &text[k..l], false)
}

// The first place in the order, from `first` on, whose name that of span s is before, or 64. Names that rise in the text as well take one comparison each.
fn place_for(text: &[u8], rows: &[usize], order: &[u8], first: usize, s: Span) -> usize
    requires { SpanIn text.now s × Rising text.now rows.now order.now first }
    ensures { result ≡ first + place_among (name_in text.now s) (row_fields text.now rows.now (drop first order.now)) }
{
    if first < 64 {
        if name_before(text, s, span_at(rows, order[first] as usize)) {
            return first;
        }
    }
    let mut low = first;
    let mut high = 64;
    while low < high {
        let middle = low + (high - low) / 2;
        if name_before(text, s, span_at(rows, order[middle] as usize)) {
            high = middle;
            continue;
        }
        low = middle + 1;
    }
    low
}

// Whether the name before place `at` in the order is that of span s.
fn repeated_at(text: &[u8], rows: &[usize], order: &[u8], first: usize, at: usize, s: Span) -> bool
    requires { SpanIn text.now s × Rising text.now rows.now order.now first × (at ≡ first + place_among (name_in text.now s) (row_fields text.now rows.now (drop first order.now))) }
    ensures { result ≡ has_name (name_in text.now s) (row_fields text.now rows.now (drop first order.now)) }
{
    if at <= first {
        return false;
    }
    name_same(text, span_at(rows, order[at - 1] as usize), s)
}

// Puts the first rows in order, from the last one on; false if a name is repeated.
pub(crate) fn arrange(text: &[u8], rows: &[usize], count: usize, order: &mut [u8]) -> bool
    requires { (count ≤ 64) × (length rows.now ≡ 448) × (length order.old ≡ 64) × Each (SpanIn text.now) (spans_in count rows.now) }
    ensures { ArrangedIs text.now rows.now count order.new result }
{
    let mut left = count;
    while 0 < left {
        let first = 64 - count + left;
        let s = span_at(rows, left - 1);
        let at = place_for(text, rows, order, first, s);
        if repeated_at(text, rows, order, first, at, s) {
            return false;
        }
        common::move_down(order, first - 1, first, at);
        order[at - 1] = (left - 1) as u8;
        left -= 1;
    }
    true
}
