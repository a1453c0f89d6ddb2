// Operators, parentheses and the comma, by their kind numbers. Document 01, "Tokens": "Operators take the longest match".
// The bytes after the first are read only where a longer symbol begins with it.
ghost use Rattle.std.specs.Prelude.{◌≡◌, cond, ◌+◌, ◌≤◌, ◌<◌, eqb, length, get_or, drop};
ghost use Rattle.lexer.specs.Token.{scan_bytes, scan_symbol};
ghost use Rattle.lexer.specs.Answer.{Good, scanned, scanned_of};

use crate::run::byte_at;
use crate::{Fault, Scanned};

// A symbol of two bytes where the second one is there, else of one.
fn either(text: &[u8], at: usize, second: u8, two: u8, one: u8) -> Scanned
    requires { at ≤ 4096 }
    ensures { scanned result ≡ cond (eqb (get_or text.now (at + 1) 0) second) (Good two 2) (Good one 1) }
{
    if byte_at(text, at + 1) == second {
        return Ok((two, 2));
    }
    Ok((one, 1))
}

// What starts with `=`, which is no symbol by itself.
fn equal(text: &[u8], at: usize) -> Scanned
    requires { at ≤ 4096 }
    ensures { scanned result ≡ scanned_of (scan_bytes 61 (get_or text.now (at + 1) 0) 0) }
{
    if byte_at(text, at + 1) == b'=' {
        return Ok((opcode::EQUAL, 2));
    }
    Err(Fault::Form)
}

// What starts with `<`.
fn less(text: &[u8], at: usize) -> Scanned
    requires { at ≤ 4096 }
    ensures { scanned result ≡ scanned_of (scan_bytes 60 (get_or text.now (at + 1) 0) 0) }
{
    if byte_at(text, at + 1) == b'<' {
        return Ok((opcode::SHIFT_LEFT, 2));
    }
    either(text, at, b'=', opcode::LESS_EQUAL, opcode::LESS)
}

// What starts with `>`.
fn greater(text: &[u8], at: usize) -> Scanned
    requires { at ≤ 4096 }
    ensures { scanned result ≡ scanned_of (scan_bytes 62 (get_or text.now (at + 1) 0) (get_or text.now (at + 2) 0)) }
{
    if byte_at(text, at + 1) != b'>' {
        return either(text, at, b'=', opcode::GREATER_EQUAL, opcode::GREATER);
    }
    if byte_at(text, at + 2) == b'>' {
        return Ok((opcode::SHIFT_RIGHT_ZERO, 3));
    }
    Ok((opcode::SHIFT_RIGHT, 2))
}

pub fn scan_symbol(text: &[u8], at: usize) -> Scanned
    requires { (length text.now ≤ 4096) × (at < length text.now) }
    ensures { scanned result ≡ scanned_of (scan_symbol (drop at text.now)) }
{
    let a = text[at];
    match a {
        b'(' => Ok((crate::OPEN, 1)),
        b')' => Ok((crate::CLOSE, 1)),
        b',' => Ok((crate::COMMA, 1)),
        b'~' => Ok((opcode::COMPLEMENT, 1)),
        b'*' => Ok((opcode::MUL, 1)),
        b'/' => Ok((opcode::DIV, 1)),
        b'%' => Ok((opcode::REM, 1)),
        b'+' => Ok((opcode::ADD, 1)),
        b'-' => Ok((opcode::SUB, 1)),
        b'&' => either(text, at, b'&', opcode::AND, opcode::BIT_AND),
        b'^' => either(text, at, b'^', opcode::XOR, opcode::BIT_XOR),
        b'|' => either(text, at, b'|', opcode::OR, opcode::BIT_OR),
        b'!' => either(text, at, b'=', opcode::NOT_EQUAL, opcode::NOT),
        b'=' => equal(text, at),
        b'<' => less(text, at),
        b'>' => greater(text, at),
        _ => Err(Fault::Form),
    }
}
