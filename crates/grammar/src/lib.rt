// What the parser is asked of single tokens, and refusal 6. The recursion over the tokens is crate `postfix`.
#![tactic(auto)]

ghost use Rattle.std.specs.Prelude.{◌≡◌};
ghost use Rattle.grammar.specs.Nesting.{too_deep};

pub mod stream;

// Refusal 6 by a linear pass, before the recursion starts.
pub fn too_deep(kinds: &[u8]) -> bool
    ensures { result ≡ too_deep kinds.now }
{
    let mut opened: usize = 0;
    let mut row: usize = 0;
    for k in kinds {
        if stream::is_flat(*k) {
            row = 0;
            continue;
        }
        opened = stream::open_after(*k, opened);
        row = stream::row_after(*k, row);
        if 24 < opened {
            return true;
        }
        if 24 < row {
            return true;
        }
    }
    false
}
