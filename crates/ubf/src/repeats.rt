// Whether a name is repeated among more fields than spans are kept of.
ghost use Rattle.std.specs.Prelude.{◌≡◌, true};
ghost use Rattle.ubf.specs.Fields.{said, is_tuple};
ghost use Rattle.ubf.specs.Span.{name_in, SpanIn, WithinTuple, AmongIs, RepeatsIs};

use crate::ordering::name_same;
use crate::scanning::blanks;
use crate::spans::{Span, ends, field_at};

// Whether one of the fields from `at` on has the name of span s.
fn among(text: &[u8], at: usize, s: Span) -> bool
    requires { WithinTuple text.now at × SpanIn text.now s }
    ensures { AmongIs text.now at (name_in text.now s) result }
{
    let mut i = at;
    let mut found = false;
    while !ends(text, i) {
        let t = field_at(text, i);
        found = found | name_same(text, t, s);
        i = t.next;
    }
    found
}

// For each field, whether one of those after it has its name.
pub(crate) fn repeats(text: &[u8]) -> bool
    requires { is_tuple (said text.now) ≡ true }
    ensures { RepeatsIs text.now result }
{
    let mut i = blanks(text, blanks(text, 0) + 1);
    while !ends(text, i) {
        let s = field_at(text, i);
        i = s.next;
        if among(text, i, s) {
            return true;
        }
    }
    false
}
