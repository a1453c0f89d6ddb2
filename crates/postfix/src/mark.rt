// What the parser asks of a single mark.
ghost use Rattle.std.specs.Prelude.{◌≡◌, ◌≤◌, length, get_or, take_while};
ghost use Rattle.lexer.specs.Kind.{ending};
ghost use Rattle.grammar.specs.Grammar.{rank as rank_of, is_prefix};
ghost use Rattle.postfix.specs.Packed.{mark_after, mark_before, function_in, alone_in};
ghost use Rattle.postfix.specs.Answer.{Run};

use crate::packed::Packed;
use grammar::stream;

// The mark after an expression, `END` if it is broken.
pub fn after(marks: &[u8], x: Packed) -> u8
    ensures { result ≡ mark_after marks.now x.0 }
{
    if x.broken() {
        return lexer::END;
    }
    stream::kind(marks, x.next())
}

// The mark after an argument, which stands before what comes next.
pub fn before(marks: &[u8], x: Packed) -> u8
    ensures { result ≡ mark_before marks.now x.0 }
{
    if x.broken() {
        return lexer::END;
    }
    stream::kind(marks, x.next().saturating_sub(1))
}

// The op of the function that is called, 0 if there is none.
pub fn function(marks: &[u8], i: usize) -> u8
    ensures { result ≡ function_in (get_or marks.now i ending) }
{
    stream::called(stream::kind(marks, i))
}

// The level of a binary operator, 11 for any other mark. Listed, since an array would be laid out in the frames of the recursion.
pub fn rank(m: u8) -> u8
    ensures { (result ≡ rank_of m) × (result ≤ 11) }
{
    match m {
        16 => 10,
        17 => 10,
        18 => 10,
        19 => 9,
        20 => 8,
        21 => 7,
        22 => 6,
        23 => 6,
        24 => 6,
        25 => 5,
        26 => 5,
        32 => 3,
        33 => 3,
        34 => 4,
        35 => 4,
        36 => 4,
        37 => 4,
        41 => 2,
        42 => 1,
        43 => 0,
        _ => 11,
    }
}

// Whether such a token stands at `at` with no operator of the level l or a tighter one after it.
pub fn alone(marks: &[u8], at: usize, l: u8) -> bool
    requires { at ≤ 4096 }
    ensures { result ≡ alone_in marks.now at l }
{
    let r = rank(stream::kind(marks, at + 1));
    stream::is_operand(stream::kind(marks, at)) & ((r < l) | (11 <= r))
}

// How many prefix operators stand first.
fn prefixes(marks: &[u8]) -> usize
    ensures { (result ≡ length (take_while is_prefix marks.now)) × (result ≤ length marks.now) }
{
    marks.iter().take_while(|m| stream::is_prefix(**m)).count()
}

// The first token from `i` on that is no prefix operator.
pub fn past_prefixes(marks: &[u8], i: usize) -> usize
    requires { (length marks.now ≤ 4096) × (i ≤ length marks.now) }
    ensures { Run marks.now i result }
{
    i + prefixes(&marks[i..])
}
