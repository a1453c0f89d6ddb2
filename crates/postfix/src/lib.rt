// The parser over the marks of tokens: levels, operand and argument list call each other in a cycle, which judges forms and kinds, counts entries and leaves the postfix codes.
#![tactic(auto)]

ghost use Rattle.std.specs.Prelude.{◌≡◌, ◌≤◌, get_or};
ghost use Rattle.lexer.specs.Kind.{ending};
ghost use Rattle.grammar.specs.Parse.{level_of, prefix_of, operand_of};
ghost use Rattle.grammar.specs.Marks.{calling};
ghost use Rattle.postfix.specs.Answer.{Ready, Tells, Parses, read_by};

use grammar::stream;

mod mark;
mod packed;
mod part;

use packed::Packed;

// How many entries the code has, whether the expression is logic, whether the refusals 4 and 5 do not apply, and how many slots it holds at once, up to 63.
#[derive(Clone, Copy)]
pub struct Judged {
    pub entries: usize,
    pub logic: bool,
    pub forms: bool,
    pub kinds: bool,
    pub depth: usize,
}

// An expression of the level l or a tighter one, from the token `at` on, whose first code is the code i. The answer is one number (packed.rt), and the loop keeps no more than the number of what stands left.
#[cycle(level)]
fn level(marks: &[u8], codes: &mut [u16], at: usize, l: u8, i: usize) -> Packed
    requires { Ready marks.now at i × (l ≤ 11) }
    ensures { Tells marks.now (λ ks. level_of ks at l) i codes.old codes.new result.0 }
{
    let mut left = first(marks, codes, at, i);
    loop {
        let k = mark::after(marks, left);
        let r = mark::rank(k);
        if r < l {
            return left;
        }
        if 11 <= r {
            return left;
        }
        let right = tighter(
            marks,
            codes,
            left.next() + 1,
            r + 1,
            part::right_start(k, left),
        );
        left = part::binary(codes, k, left, right);
    }
}

// The right side of an operator. Most are a literal or a name that no operator of the level follows, and the tightest level has no operators: these take no frame of the recursion.
#[cycle(level)]
fn tighter(marks: &[u8], codes: &mut [u16], at: usize, l: u8, i: usize) -> Packed
    requires { Ready marks.now at i × (l ≤ 11) }
    ensures { Tells marks.now (λ ks. level_of ks at l) i codes.old codes.new result.0 }
{
    if mark::alone(marks, at, l) {
        return part::leaf(codes, stream::kind(marks, at), at, i);
    }
    if l == 11 {
        return prefix(marks, codes, at, i);
    }
    level(marks, codes, at, l, i)
}

// What stands first on a level. Most often it is a literal or a name.
#[cycle(level)]
fn first(marks: &[u8], codes: &mut [u16], at: usize, i: usize) -> Packed
    requires { Ready marks.now at i }
    ensures { Tells marks.now (λ ks. prefix_of ks at) i codes.old codes.new result.0 }
{
    let m = stream::kind(marks, at);
    if stream::is_operand(m) {
        return part::leaf(codes, m, at, i);
    }
    prefix(marks, codes, at, i)
}

// "`!` and `~` (prefix, on what follows directly)": a run of them is a loop.
#[cycle(level)]
fn prefix(marks: &[u8], codes: &mut [u16], at: usize, i: usize) -> Packed
    requires { Ready marks.now at i }
    ensures { Tells marks.now (λ ks. prefix_of ks at) i codes.old codes.new result.0 }
{
    let first = mark::past_prefixes(marks, at);
    let inner = operand(marks, codes, first, i);
    part::prefixed(marks, codes, at, first, inner)
}

// A literal, a name, an expression in parentheses, or a call.
#[cycle(level)]
fn operand(marks: &[u8], codes: &mut [u16], at: usize, i: usize) -> Packed
    requires { Ready marks.now at i }
    ensures { Tells marks.now (λ ks. operand_of ks at) i codes.old codes.new result.0 }
{
    let m = stream::kind(marks, at);
    if m == lexer::OPEN {
        let inner = level(marks, codes, at + 1, 0, i);
        return part::group(marks, inner);
    }
    if stream::CALLING <= m {
        return arguments(marks, codes, at, i);
    }
    part::leaf(codes, m, at, i)
}

// The call whose mark stands at `at`, before a `(`.
#[cycle(level)]
fn arguments(marks: &[u8], codes: &mut [u16], at: usize, i: usize) -> Packed
    requires { Ready marks.now at i × (calling ≤ get_or marks.now at ending) }
    ensures { Tells marks.now (λ ks. operand_of ks at) i codes.old codes.new result.0 }
{
    let function = mark::function(marks, at);
    if stream::kind(marks, at + 2) == lexer::CLOSE {
        return part::call(marks, codes, function, part::no_args(at + 3, i));
    }
    let mut args = part::no_args(at + 2, i);
    loop {
        let arg = level(marks, codes, args.next(), 0, args.end());
        args = part::more_args(args, arg);
        if mark::before(marks, args) != lexer::COMMA {
            return part::call(marks, codes, function, args);
        }
    }
}

// The answer of n tokens by that of the expression that starts them.
fn answer(n: usize, x: Packed) -> Result<Judged, usize>
    ensures { result ≡ read_by n x.0 }
{
    let next = x.next();
    if x.broken() | (next != n) {
        return Err(next);
    }
    let known = x.known();
    Ok(Judged {
        entries: x.end(),
        logic: known.logic(),
        forms: known.forms(),
        kinds: known.kinds(),
        depth: known.depth() as usize,
    })
}

// The whole of the tokens as one expression, or the token that cannot go on. The codes are left as far as there is room.
pub fn parse(marks: &[u8], codes: &mut [u16]) -> Result<Judged, usize>
    requires { Ready marks.now 0 0 }
    ensures { Parses marks.now codes.old codes.new result }
{
    let x = level(marks, codes, 0, 0, 0);
    answer(marks.len(), x)
}
