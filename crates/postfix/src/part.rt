// The parts of an expression: what is known of each from what is known of its own parts, and the codes that it leaves.
ghost use Rattle.std.specs.Prelude.{◌≡◌, cond, true, ◌&&◌, ◌+◌, ◌<◌, ◌≤◌, eqb, set};
ghost use Rattle.std.proofs.lemmas.List.Edits.{sets};
ghost use Rattle.grammar.specs.Size.{skips};
ghost use Rattle.grammar.specs.Judge.{leaf_form, call_form, is_text, call_right, gives_logic, takes_logic, agrees};
ghost use Rattle.grammar.specs.Code.{code, skip_codes, call_code};
ghost use Rattle.postfix.specs.Packed.{packed, count_bits, unary_known, binary_known, group_known, none_known, more_known, call_known, unary_part, unary_codes, right_start, binary_part, binary_codes, group_part, leaf_part, leaf_codes, more_part, call_part, call_codes};
ghost use Rattle.postfix.specs.Form.{form_of};
ghost use Rattle.postfix.specs.Answer.{Wraps};

use crate::mark;
use crate::packed::{Form, Known, Packed, deeper};
use grammar::stream;

// ---- codes

// A code past the end is left out.
fn leave(codes: &mut [u16], i: usize, c: u16)
    ensures { codes.new ≡ set codes.old i c }
{
    if i < codes.len() {
        codes[i] = c;
    }
}

// An entry's op and its a, in one number.
fn code_of(op: u8, a: usize) -> u16
    requires { a ≤ 65536 }
    ensures { result ≡ code op a }
{
    ((op as usize + 64 * a) % 65536) as u16
}

// ---- operators

fn gives_logic(k: u8) -> bool
    ensures { result ≡ gives_logic k }
{
    opcode::EQUAL <= k
}

// Whether an operand is of the kind that the operator k takes.
fn operand_right(k: u8, logic: bool) -> bool
    ensures { result ≡ agrees (takes_logic k) logic }
{
    if opcode::NOT <= k { logic } else { !logic }
}

fn unary_known(k: u8, f: Known) -> Known
    ensures { (result.0 ≡ unary_known k f.0) × (result.0 < 1073741824) }
{
    let kinds = f.kinds() & operand_right(k, f.logic());
    Known::new(gives_logic(k), f.forms(), kinds, Form::Other, f.depth())
}

// A prefix operator on an expression.
fn unary(codes: &mut [u16], k: u8, x: Packed) -> Packed
    ensures { (result.0 ≡ unary_part k x.0) × (codes.new ≡ unary_codes k x.0 codes.old) }
{
    if x.broken() {
        return x;
    }
    let end = x.end();
    leave(codes, end, code_of(k, 0));
    Packed::new(x.next(), end + 1, unary_known(k, x.known()))
}

// The prefix operators from `at` up to `first`, from the last to the first, on the expression that follows them.
pub fn prefixed(marks: &[u8], codes: &mut [u16], at: usize, first: usize, inner: Packed) -> Packed
    ensures { Wraps marks.now at first inner.0 codes.old codes.new result.0 }
{
    let mut x = inner;
    for n in (at..first).rev() {
        x = unary(codes, stream::kind(marks, n), x);
    }
    x
}

fn is_skipping(k: u8) -> bool
    ensures { result ≡ skips k }
{
    (k == opcode::AND) | (k == opcode::OR)
}

// Where the codes of the right side start: past the skip, if there is one.
pub fn right_start(k: u8, x: Packed) -> usize
    ensures { result ≡ right_start k x.0 }
{
    if is_skipping(k) { x.end() + 1 } else { x.end() }
}

// The skip before a right side of n entries, if there is one.
fn leave_skip(codes: &mut [u16], k: u8, end: usize, n: usize)
    requires { n < 65536 }
    ensures { codes.new ≡ sets codes.old end (skip_codes k n) }
{
    if k == opcode::AND {
        leave(codes, end, code_of(opcode::SKIP_IF_FALSE, n + 1));
        return;
    }
    if k == opcode::OR {
        leave(codes, end, code_of(opcode::SKIP_IF_TRUE, n + 1));
    }
}

fn binary_known(k: u8, f: Known, g: Known) -> Known
    ensures { (result.0 ≡ binary_known k f.0 g.0) × (result.0 < 1073741824) }
{
    let left = f.kinds() & operand_right(k, f.logic());
    let right = g.kinds() & operand_right(k, g.logic());
    Known::new(
        gives_logic(k),
        f.forms() & g.forms(),
        left & right,
        Form::Other,
        deeper(f.depth(), g.depth() + 1),
    )
}

// A binary operator between two expressions.
pub fn binary(codes: &mut [u16], k: u8, x: Packed, y: Packed) -> Packed
    ensures { (result.0 ≡ binary_part k x.0 y.0) × (codes.new ≡ binary_codes k x.0 y.0 codes.old) }
{
    if y.broken() {
        return y;
    }
    let end = x.end();
    let last = y.end();
    leave_skip(codes, k, end, last.saturating_sub(end + 1));
    leave(codes, last, code_of(k, 0));
    Packed::new(y.next(), last + 1, binary_known(k, x.known(), y.known()))
}

// ---- operands

// "names and literals asked for take no own parentheses"
fn group_known(f: Known) -> Known
    ensures { (result.0 ≡ group_known f.0) × (result.0 < 1073741824) }
{
    let form = Form::Other;
    Known::new(f.logic(), f.forms(), f.kinds(), form, f.depth())
}

// A parenthesised expression, if a `)` follows it.
pub fn group(marks: &[u8], x: Packed) -> Packed
    ensures { result.0 ≡ group_part marks.now x.0 }
{
    if x.broken() {
        return x;
    }
    let n = x.next();
    if stream::kind(marks, n) == lexer::CLOSE {
        return Packed::new(n + 1, x.end(), group_known(x.known()));
    }
    Packed::broken_at(n)
}

fn leaf_form(k: u8) -> Form
    ensures { form_of result ≡ leaf_form k }
{
    if k == lexer::NAME {
        return Form::Name;
    }
    if k == lexer::TEXT {
        return Form::Text;
    }
    Form::Other
}

// A literal or a name that is not called.
pub fn leaf(codes: &mut [u16], k: u8, at: usize, i: usize) -> Packed
    requires { (at < 65536) × (i < 65536) }
    ensures { (result.0 ≡ leaf_part k at i) × (codes.new ≡ leaf_codes k i codes.old) }
{
    if !stream::is_operand(k) {
        return Packed::broken_at(at);
    }
    leave(codes, i, code_of(k, 0));
    Packed::new(
        at + 1,
        i + 1,
        Known::new(false, true, true, leaf_form(k), 1),
    )
}

// ---- calls

// No arguments yet.
pub fn no_args(next: usize, i: usize) -> Packed
    requires { (next ≤ 65536) × (i ≤ 65536) }
    ensures { result.0 ≡ packed next i none_known }
{
    Packed::new(next, i, Known::new(true, true, true, Form::Other, 1))
}

fn first_form(count: u64, new: Form, old: Form) -> Form
    ensures { result ≡ cond (eqb count 0) new old }
{
    if count == 0 { new } else { old }
}

fn all_texts(count: u64, texts: bool, new: Form) -> bool
    ensures { result ≡ cond (eqb count 0) true (texts && is_text (form_of new)) }
{
    if count == 0 {
        true
    } else {
        texts & new.is_text()
    }
}

fn more_known(a: Known, f: Known) -> Known
    ensures { (result.0 ≡ more_known a.0 f.0) × (result.0 ≤ 2147483648) }
{
    let count = a.count();
    let new = f.form();
    let texts = all_texts(count, a.logic(), new);
    let first = first_form(count, new, a.form());
    let kinds = a.kinds() & (f.kinds() & !f.logic());
    let known = Known::new(
        texts,
        a.forms() & f.forms(),
        kinds,
        first,
        deeper(a.depth(), count + f.depth()),
    );
    Known(known.0 + 256 * (count + 1))
}

// One argument more. What comes next is the token after the `,` or `)` that follows it.
pub fn more_args(args: Packed, arg: Packed) -> Packed
    ensures { result.0 ≡ more_part args.0 arg.0 }
{
    if arg.broken() {
        return arg;
    }
    let known = more_known(args.known(), arg.known());
    Packed::new(arg.next() + 1, arg.end(), known)
}

// Whether the arguments are those that the function with this op takes.
fn call_right(function: u8, form: Form, count: u64, texts: bool) -> bool
    ensures { result ≡ call_right function (form_of form) count texts }
{
    if function == opcode::FOLD_CASE {
        return (count == 1) & (form.is_name() | (form.is_text() | form.is_folding()));
    }
    if function == opcode::EQUALS {
        return form.is_name() & ((2 <= count) & (count <= 9));
    }
    if (opcode::BEGINS_WITH <= function) & (function <= opcode::REGEX) {
        return (form.is_name() | form.is_folding()) & ((2 <= count) & ((count <= 9) & texts));
    }
    if (function == opcode::SIZE)
        | ((opcode::IS_INT32 <= function) & (function <= opcode::REQUIRE))
    {
        return (count == 1) & form.is_name();
    }
    false
}

fn call_form(function: u8) -> Form
    ensures { form_of result ≡ call_form function }
{
    if function == opcode::FOLD_CASE {
        Form::Folding
    } else {
        Form::Other
    }
}

fn call_known(function: u8, a: Known) -> Known
    ensures { (result.0 ≡ call_known function a.0) × (result.0 < 1073741824) }
{
    let right = call_right(function, a.form(), a.count(), a.logic());
    Known::new(
        gives_logic(function),
        a.forms() & right,
        a.kinds(),
        call_form(function),
        a.depth(),
    )
}

fn call_code(function: u8, a: Known) -> u16
    ensures { result ≡ call_code function (count_bits a.0) }
{
    if opcode::BEGINS_WITH <= function {
        return code_of(function, a.count().saturating_sub(1) as usize);
    }
    code_of(function, 0)
}

// A call of a function, if a `)` follows its arguments.
pub fn call(marks: &[u8], codes: &mut [u16], function: u8, args: Packed) -> Packed
    ensures { (result.0 ≡ call_part marks.now function args.0) × (codes.new ≡ call_codes marks.now function args.0 codes.old) }
{
    if args.broken() {
        return args;
    }
    let next = args.next();
    if mark::before(marks, args) != lexer::CLOSE {
        return Packed::broken_at(next.saturating_sub(1));
    }
    let end = args.end();
    let a = args.known();
    leave(codes, end, call_code(function, a));
    Packed::new(next, end + 1, call_known(function, a))
}
