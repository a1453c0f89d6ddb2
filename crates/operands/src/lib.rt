// Linear passes over the tokens of a text: calls are marked, operands gathered, patterns judged.
#![tactic(auto)]

ghost use Rattle.std.specs.Prelude.{◌≡◌, false, ◌+◌, ◌-◌, ◌%◌, ◌≤◌, ◌<◌, ◌^◌, length, set};
ghost use Rattle.std.proofs.lemmas.List.Edits.{sets};
ghost use Rattle.grammar.specs.Size.{pool_bytes};
ghost use Rattle.grammar.specs.Function.{op_if_any};
ghost use Rattle.grammar.specs.Nesting.{too_deep};
ghost use Rattle.grammar.specs.Stream.{token_of, tokens_in};
ghost use Rattle.grammar.specs.Marks.{calling, mark_at, marks_of, is_operand};
ghost use Rattle.operands.specs.Gather.{each_from, place_at, size_at, operand_places, operand_sizes};
ghost use Rattle.operands.specs.Patterns.{asks_patterns, mark_before, digit_of, function_by, opens_after, is_later, right_at, patterns_by};

use grammar::stream;
use grammar::stream::{CALLING, called, is_operand};

mod literal;

use literal::{literal_right, takes_patterns};

// The mark of the token i: "A name before `(` is always a call."
fn mark_at(text: &[u8], kinds: &[u8], starts: &[u16], i: usize) -> u8
    requires { i < length kinds.now }
    ensures { result ≡ mark_at (tokens_in text.now kinds.now starts.now) i }
{
    let k = kinds[i];
    if k != lexer::NAME {
        return k;
    }
    if stream::kind(kinds, i + 1) != lexer::OPEN {
        return k;
    }
    CALLING + stream::function(text, stream::start(starts, i)).unwrap_or(0)
}

// Puts the mark of each token in the place of its kind, and answers whether some function that takes patterns is called.
// In place, from the front: a mark needs the kinds of its own token and of the next, which are not marked yet. Most marks are the kinds that stand there.
pub fn mark(text: &[u8], kinds: &mut [u8], starts: &[u16]) -> bool
    ensures value { result ≡ asks_patterns (marks_of (tokens_in text.now kinds.old starts.now)) }
    ensures kinds_after { kinds.new ≡ marks_of (tokens_in text.now kinds.old starts.now) }
{
    let mut asks = false;
    for i in 0..kinds.len() {
        let m = mark_at(text, kinds, starts, i);
        if m < CALLING {
            continue;
        }
        kinds[i] = m;
        asks = asks | takes_patterns(called(m));
    }
    asks
}

fn place(starts: &[u16], i: usize) -> u16
    ensures { result ≡ place_at starts.now i }
{
    starts.get(i).copied().unwrap_or(0)
}

// How many bytes the operand of a kind that starts at a place brings to the pool.
fn size(text: &[u8], k: u8, at: usize) -> u16
    requires { length text.now ≤ 4096 }
    ensures { result ≡ pool_bytes (token_of text.now k at) }
{
    if k == lexer::NAME {
        return lexer::name_length(text, at) as u16;
    }
    if k == lexer::TEXT {
        return lexer::string_length(text, at) as u16;
    }
    0
}

// Stores a number, if the slice goes so far.
fn put(part: &mut [u16], at: usize, x: u16)
    ensures { part.new ≡ set part.old at x }
{
    if at < part.len() {
        part[at] = x;
    }
}

// Adds the token i, if it is an operand, to the n that were gathered, and answers how many they are then.
fn gather_at(
    text: &[u8],
    marks: &[u8],
    starts: &[u16],
    places: &mut [u16],
    sizes: &mut [u16],
    i: usize,
    n: usize,
) -> usize
    requires { (length text.now ≤ 4096) × (i < length marks.now) × (n ≤ i) }
    ensures value { result ≡ n + length (each_from (place_at starts.now) marks.now i 1) }
    ensures places_after { places.new ≡ sets places.old n (each_from (place_at starts.now) marks.now i 1) }
    ensures sizes_after { sizes.new ≡ sets sizes.old n (each_from (size_at text.now marks.now starts.now) marks.now i 1) }
{
    let m = marks[i];
    if !is_operand(m) {
        return n;
    }
    let at = place(starts, i);
    put(places, n, at);
    put(sizes, n, size(text, m, at as usize));
    n + 1
}

// The start and the unescaped length of each operand, in text order, go to the front of the lent slices, as far as these go; their other elements stay. Answers how many operands there are.
pub fn gather(
    text: &[u8],
    marks: &[u8],
    starts: &[u16],
    places: &mut [u16],
    sizes: &mut [u16],
) -> usize
    requires { length text.now ≤ 4096 }
    ensures value { result ≡ length (operand_places marks.now starts.now) }
    ensures places_after { places.new ≡ sets places.old 0 (operand_places marks.now starts.now) }
    ensures sizes_after { sizes.new ≡ sets sizes.old 0 (operand_sizes text.now marks.now starts.now) }
{
    let mut n = 0;
    for i in 0..marks.len() {
        n = gather_at(text, marks, starts, places, sizes, i, n);
    }
    n
}

fn mark_before(marks: &[u8], i: usize) -> u8
    ensures { result ≡ mark_before marks.now i }
{
    if i == 0 {
        lexer::END
    } else {
        stream::kind(marks, i - 1)
    }
}

fn digit_of(function: u8) -> u64
    ensures { (result ≡ digit_of function) × (result < 4) }
{
    match function {
        opcode::WILDCARD => 1,
        opcode::REGEX => 2,
        _ => 0,
    }
}

fn function_by(digit: u64) -> Option<u8>
    ensures { result ≡ op_if_any (function_by digit) }
{
    match digit {
        1 => Some(opcode::WILDCARD),
        2 => Some(opcode::REGEX),
        _ => None,
    }
}

// The functions of the parentheses that are open after the mark m, a digit each, where `prior` is the mark before it.
fn opens_after(m: u8, prior: u8, opens: u64) -> u64
    requires { opens < 4 ^ 24 }
    ensures { result ≡ opens_after m prior opens }
{
    if m == lexer::OPEN {
        return 4 * opens + digit_of(called(prior));
    }
    if m == lexer::CLOSE {
        return opens / 4;
    }
    opens
}

// Whether the token i is a string literal that is a whole argument, and not the first.
fn is_later(marks: &[u8], i: usize) -> bool
    requires { i < length marks.now }
    ensures { result ≡ is_later marks.now i }
{
    let next = stream::kind(marks, i + 1);
    (stream::kind(marks, i) == lexer::TEXT)
        & ((mark_before(marks, i) == lexer::COMMA)
            & ((next == lexer::COMMA) | (next == lexer::CLOSE)))
}

// If the token i is a literal that is to be a pattern, whether it is one.
fn right_at(text: &[u8], marks: &[u8], starts: &[u16], opens: u64, i: usize) -> bool
    requires { (length text.now ≤ 4096) × (i < length marks.now) }
    ensures { result ≡ right_at text.now marks.now starts.now opens i }
{
    let Some(function) = function_by(opens % 4) else {
        return true;
    };
    if is_later(marks, i) {
        return literal_right(text, stream::start(starts, i), function);
    }
    true
}

// Refusal 18 by a linear pass, where refusal 6 does not apply.
pub fn patterns(text: &[u8], marks: &[u8], starts: &[u16]) -> bool
    requires { (length text.now ≤ 4096) × (too_deep marks.now ≡ false) }
    ensures { result ≡ patterns_by text.now marks.now starts.now }
{
    let mut opens: u64 = 0;
    for (i, m) in marks.iter().enumerate() {
        if !right_at(text, marks, starts, opens, i) {
            return false;
        }
        opens = opens_after(*m, mark_before(marks, i), opens);
    }
    true
}
