// Bracket sets, read in place from a pattern's text, each byte under the text's folding mark.
ghost use Rattle.std.specs.Prelude.{◌≡◌, drop};
ghost use Rattle.octets.specs.Octets.{folded};
ghost use Rattle.pattern.specs.Steps.{begins as begins_of, escaped_at, member_at, joined_at, piece_at, test_at};

use octets::fold;

// What begins at an index of a set.
#[derive(Clone, Copy)]
pub enum Piece {
    // The bytes from the first to the second, and the index behind them; of a member alone both are its byte.
    Range(u8, u8, usize),
    // The `]` that closes the set.
    Close,
    // The text ends.
    End,
}

// A set that was read: whether it has the byte, and the index behind its `]`.
#[derive(Clone, Copy)]
pub struct SetTest {
    pub hit: bool,
    pub end: usize,
}

// Whether a byte stands at an index.
pub fn begins(p: &[u8], i: usize, k: u8) -> bool
    ensures { result ≡ begins_of k (drop i p.now) }
{
    i < p.len() && p[i] == k
}

// "a backslash makes the next byte plain, in a set too"
fn escaped_at(p: &[u8], mark: bool, i: usize) -> Piece
    ensures { result ≡ escaped_at i (drop i (folded «mark» p.now)) }
{
    if i < p.len() {
        let b = fold(mark, p[i]);
        return Piece::Range(b, b, i + 1);
    }
    Piece::End
}

// "In a set the first unescaped `]` closes"
fn member_at(p: &[u8], mark: bool, i: usize) -> Piece
    ensures { result ≡ member_at i (drop i (folded «mark» p.now)) }
{
    if p.len() <= i {
        return Piece::End;
    }
    match p[i] {
        b']' => Piece::Close,
        b'\\' => escaped_at(p, mark, i + 1),
        c => {
            let b = fold(mark, c);
            Piece::Range(b, b, i + 1)
        }
    }
}

// A member, the `-` at an index and what follows it: a range if that is a member.
fn joined(low: u8, i: usize, behind: Piece) -> Piece
    ensures { result ≡ joined_at low i behind }
{
    match behind {
        Piece::Range(high, _, next) => Piece::Range(low, high, next),
        Piece::Close | Piece::End => Piece::Range(low, low, i),
    }
}

// "a member, `-` and a member is a range, read from the left; other bytes are plain"
fn piece_at(p: &[u8], mark: bool, i: usize) -> Piece
    ensures { result ≡ piece_at i (folded «mark» p.now) }
{
    match member_at(p, mark, i) {
        Piece::Range(low, _, next) => {
            if begins(p, next, b'-') {
                return joined(low, next, member_at(p, mark, next + 1));
            }
            Piece::Range(low, low, next)
        }
        Piece::Close => Piece::Close,
        Piece::End => Piece::End,
    }
}

// The set whose members begin at an index, tested for a byte; none if it is unclosed or empty, or a range falls.
// Laid into each caller, so that no answer goes through memory, and no member is folded where the mark is known.
#[inline(always)]
pub fn set_test(p: &[u8], mark: bool, at: usize, c: u8) -> Option<SetTest>
    ensures { result ≡ test_at at (drop at (folded «mark» p.now)) c }
{
    let mut hit = false;
    let mut i = at;
    while i < p.len() {
        match piece_at(p, mark, i) {
            Piece::Range(low, high, next) => {
                if high < low {
                    return None;
                }
                hit |= (low <= c) & (c <= high);
                i = next;
            }
            Piece::Close => {
                if i == at {
                    return None;
                }
                return Some(SetTest { hit, end: i + 1 });
            }
            Piece::End => return None,
        }
    }
    None
}
