// What the parser asks of a single token.
ghost use Rattle.std.specs.Prelude.{◌≡◌, true, false, ◌+◌, ◌-◌, ◌≤◌, ◌<◌, length, get_or};
ghost use Rattle.grammar.specs.Grammar.{is_prefix};
ghost use Rattle.grammar.specs.Function.{changes, tests, matches, among, op_of_name, op_if_any};
ghost use Rattle.grammar.specs.Marks.{calling, is_operand};
ghost use Rattle.grammar.specs.Nesting.{open_after, row_after, is_flat};
ghost use Rattle.lexer.specs.Token.{name_at, escaped_at};
ghost use Rattle.lexer.specs.Kind.{ending};

// The kind of the token at `at`, and `END` past the last one.
pub fn kind(kinds: &[u8], at: usize) -> u8
    ensures { result ≡ get_or kinds.now at ending }
{
    kinds.get(at).copied().unwrap_or(lexer::END)
}

pub fn start(starts: &[u16], at: usize) -> usize
    ensures { result ≡ get_or starts.now at 0 }
{
    usize::from(starts.get(at).copied().unwrap_or(0))
}

// Added to the op of a called function: no kind and no op is as large.
pub const CALLING: u8 = 128;

// The op of a called function by its mark, 0 for any other mark.
pub fn called(m: u8) -> u8
    ensures { result ≡ m - calling }
{
    m.saturating_sub(CALLING)
}

// Whether a mark is a literal's, or that of a name that is not called.
pub fn is_operand(m: u8) -> bool
    ensures { result ≡ is_operand m }
{
    matches!(m, lexer::INT32..=lexer::NAME)
}

pub fn is_prefix(k: u8) -> bool
    ensures { result ≡ is_prefix k }
{
    matches!(k, opcode::NOT | opcode::COMPLEMENT)
}

// The op of the function that the name at a place of the text calls, if there is one.
pub fn function(text: &[u8], at: usize) -> Option<u8>
    ensures { result ≡ op_if_any (op_of_name (name_at text.now at) (escaped_at text.now at)) }
{
    change(text, at)
        .or_else(|| test(text, at))
        .or_else(|| matching(text, at))
}

fn change(text: &[u8], at: usize) -> Option<u8>
    ensures { result ≡ op_if_any (among changes (name_at text.now at) (escaped_at text.now at)) }
{
    if lexer::name_is(text, at, b"fold-case") {
        return Some(opcode::FOLD_CASE);
    }
    if lexer::name_is(text, at, b"size") {
        return Some(opcode::SIZE);
    }
    None
}

fn test(text: &[u8], at: usize) -> Option<u8>
    ensures { result ≡ op_if_any (among tests (name_at text.now at) (escaped_at text.now at)) }
{
    if lexer::name_is(text, at, b"int32") {
        return Some(opcode::IS_INT32);
    }
    if lexer::name_is(text, at, b"int64") {
        return Some(opcode::IS_INT64);
    }
    if lexer::name_is(text, at, b"real64") {
        return Some(opcode::IS_REAL64);
    }
    if lexer::name_is(text, at, b"string") {
        return Some(opcode::IS_TEXT);
    }
    if lexer::name_is(text, at, b"opaque") {
        return Some(opcode::IS_OPAQUE);
    }
    if lexer::name_is(text, at, b"nan") {
        return Some(opcode::IS_NAN);
    }
    if lexer::name_is(text, at, b"require") {
        return Some(opcode::REQUIRE);
    }
    None
}

fn matching(text: &[u8], at: usize) -> Option<u8>
    ensures { result ≡ op_if_any (among matches (name_at text.now at) (escaped_at text.now at)) }
{
    if lexer::name_is(text, at, b"begins-with") {
        return Some(opcode::BEGINS_WITH);
    }
    if lexer::name_is(text, at, b"contains") {
        return Some(opcode::CONTAINS);
    }
    if lexer::name_is(text, at, b"ends-with") {
        return Some(opcode::ENDS_WITH);
    }
    if lexer::name_is(text, at, b"equals") {
        return Some(opcode::EQUALS);
    }
    if lexer::name_is(text, at, b"wildcard") {
        return Some(opcode::WILDCARD);
    }
    if lexer::name_is(text, at, b"regex") {
        return Some(opcode::REGEX);
    }
    None
}

// What is open after a token of the kind k, and how many prefix operators stand in a row.
pub(crate) fn open_after(k: u8, opened: usize) -> usize
    requires { opened ≤ 24 }
    ensures { result ≡ open_after k opened }
{
    match k {
        lexer::OPEN => opened + 1,
        lexer::CLOSE => opened.saturating_sub(1),
        _ => opened,
    }
}

pub(crate) fn row_after(k: u8, row: usize) -> usize
    requires { row ≤ 24 }
    ensures { result ≡ row_after k row }
{
    if is_prefix(k) { row + 1 } else { 0 }
}

// Most tokens open and close nothing and are no prefix operators.
pub(crate) fn is_flat(k: u8) -> bool
    ensures { result ≡ is_flat k }
{
    !matches!(
        k,
        lexer::OPEN | lexer::CLOSE | opcode::NOT | opcode::COMPLEMENT
    )
}
