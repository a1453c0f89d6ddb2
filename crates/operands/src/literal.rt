// Refusal 18: whether a string literal is a pattern of a function. Document 02, requests 1 and 13.
ghost use Rattle.std.specs.Prelude.{◌≡◌, ◌≤◌, length};
ghost use Rattle.lexer.specs.Token.{string_at};
ghost use Rattle.grammar.specs.Judge.{takes_patterns, pattern_test};

use pattern::wildcard;

pub fn takes_patterns(function: u8) -> bool
    ensures { result ≡ takes_patterns function }
{
    matches!(function, opcode::WILDCARD | opcode::REGEX)
}

fn is_pattern(function: u8, p: &[u8]) -> bool
    ensures { result ≡ pattern_test function p.now }
{
    match function {
        opcode::WILDCARD => wildcard::well_formed(p),
        opcode::REGEX => regexp::well_formed(p),
        _ => true,
    }
}

// Whether the string at a place of the text, of at most N bytes, is a pattern of the function.
fn judge<const N: usize>(text: &[u8], at: usize, function: u8) -> bool
    requires { (length (string_at text.now at) ≤ N) × (N ≤ 4096) }
    ensures { result ≡ pattern_test function (string_at text.now at) }
{
    let mut room = [0u8; N];
    let n = lexer::copy_string(text, at, &mut room);
    is_pattern(function, &room[..n])
}

// A short string has a short array, since every element of an array is set before it is used.
pub fn literal_right(text: &[u8], at: usize, function: u8) -> bool
    requires { length text.now ≤ 4096 }
    ensures { result ≡ pattern_test function (string_at text.now at) }
{
    if 256 < lexer::string_length(text, at) {
        return judge::<4096>(text, at, function);
    }
    judge::<256>(text, at, function)
}
