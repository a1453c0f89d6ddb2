// Whether a text is in the syntax, item by item; nesting is a counter.
ghost use Rattle.std.specs.Prelude.{◌≡◌, ◌<◌, length, get_or, true, false, ◌||◌};
ghost use Rattle.ubf.specs.Byte.{is, is_digit};
ghost use Rattle.ubf.specs.Fields.{said, in_syntax};
ghost use Rattle.ubf.specs.Scan.{is_blank, passed, is_delimiter, is_mark, ItemIs};

use crate::scanning::{binary_end, blanks, integer_at, is_digit, quoted_at};

// How far a text was judged: the place, the open tuples, and whether the last item is an integer, which a `~` may take, by sign and size.
#[derive(Drop)]
pub struct Progress {
    pub at: usize,
    pub depth: usize,
    pub held: bool,
    pub negative: bool,
    pub size: u64,
}

// After an item that is no integer, which ends before `at`.
fn past(at: usize, depth: usize) -> Progress
    ensures { result ≡ passed at depth }
{
    Progress {
        at,
        depth,
        held: false,
        negative: false,
        size: 0,
    }
}

// A string, an atom or a tag.
fn quoted_item(text: &[u8], p: Progress, q: u8) -> Progress
    requires { (p.at < length text.now) × (get_or text.now p.at 0 ≡ q) × (is_delimiter q ≡ true) }
    ensures { ItemIs text.now p result }
{
    let end = quoted_at(text, p.at + 1, q).end;
    if end == text.len() {
        return past(end, p.depth);
    }
    past(end + 1, p.depth)
}

fn integer_item(text: &[u8], p: Progress) -> Progress
    requires { (p.at < length text.now) × ((is_digit (get_or text.now p.at 0) || is "-" (get_or text.now p.at 0)) ≡ true) }
    ensures { ItemIs text.now p result }
{
    let n = integer_at(text, p.at);
    if n.end == p.at {
        return past(text.len(), p.depth);
    }
    Progress {
        at: n.end,
        depth: p.depth,
        held: true,
        negative: n.negative,
        size: n.size,
    }
}

// "a binary with no integer just before it or with a negative or wrong count"
fn binary_item(text: &[u8], p: Progress) -> Progress
    requires { (p.at < length text.now) × (get_or text.now p.at 0 ≡ 126) }
    ensures { ItemIs text.now p result }
{
    if !p.held | (p.negative & (p.size != 0)) {
        return past(text.len(), p.depth);
    }
    let end = binary_end(text, p.at, p.size);
    if end == text.len() {
        return past(end, p.depth);
    }
    past(end + 1, p.depth)
}

// A brace, a comma, or a mark of one byte.
fn mark_item(text: &[u8], p: Progress, b: u8) -> Progress
    requires { (p.at < length text.now) × (get_or text.now p.at 0 ≡ b) × (is_mark b ≡ true) × (p.depth < 18446744073709551615) }
    ensures { ItemIs text.now p result }
{
    if b == b'{' {
        return past(p.at + 1, p.depth + 1);
    }
    if b == b'}' {
        if p.depth == 0 {
            return past(text.len(), p.depth);
        }
        return past(p.at + 1, p.depth - 1);
    }
    if b == b',' {
        return past(text.len(), p.depth);
    }
    past(p.at + 1, p.depth)
}

// One item more, which is no `$`; the text's length for what is outside the syntax.
fn item(text: &[u8], p: Progress) -> Progress
    requires { (p.at < length text.now) × (is_blank (get_or text.now p.at 0) ≡ false) × (get_or text.now p.at 0 ≡ 36 → ⊥) × (p.depth < 18446744073709551615) }
    ensures { ItemIs text.now p result }
{
    let at = p.at;
    let b = text[at];
    if ((b == b'"') | (b == b'\'')) | (b == b'`') {
        return quoted_item(text, p, b);
    }
    if is_digit(b) | (b == b'-') {
        return integer_item(text, p);
    }
    if b == b'~' {
        return binary_item(text, p);
    }
    mark_item(text, p, b)
}

// "The first `$` outside strings, atoms, binaries, tags and comments ends the text": 22 for all else.
pub(crate) fn in_syntax(text: &[u8]) -> bool
    ensures { result ≡ in_syntax (said text.now) }
{
    let mut p = past(0, 0);
    while p.at < text.len() {
        let at = blanks(text, p.at);
        if at == text.len() {
            return false;
        }
        if text[at] == b'$' {
            return (p.depth == 0) & (text.len() - at == 1);
        }
        p.at = at;
        p = item(text, p);
    }
    false
}
