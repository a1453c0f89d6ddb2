// Reading: tokens, marks, operands and patterns of a text, one linear pass after the other. The tokens' starts are held by these functions alone, and not while the parser runs.
ghost use Rattle.std.specs.Prelude.{◌≡◌, false, ◌≤◌, length};
ghost use Rattle.std.proofs.lemmas.List.Edits.{sets};
ghost use Rattle.grammar.specs.Nesting.{too_deep};
ghost use Rattle.grammar.specs.Marks.{marks_of};
ghost use Rattle.grammar.specs.Stream.{tokens_in};
ghost use Rattle.operands.specs.Gather.{operand_places, operand_sizes};
ghost use Rattle.operands.specs.Patterns.{asks_patterns, patterns_by};
ghost use Rattle.translator.specs.Emit.{Reads, PlaceOf, read_of};

use grammar::stream;
use refusal::Refusal;

// How many tokens and operands a text has, and whether refusal 18 does not apply.
#[derive(Clone, Copy)]
pub struct Reading {
    pub tokens: usize,
    pub operands: usize,
    pub patterns: bool,
}

// Refusal 18, which only a function that takes patterns brings.
fn patterns_right(text: &[u8], marks: &[u8], starts: &[u16], asked: bool) -> bool
    requires { (length text.now ≤ 4096) × (too_deep marks.now ≡ false) × (asked ≡ asks_patterns marks.now) }
    ensures { result ≡ patterns_by text.now marks.now starts.now }
{
    !asked || operands::patterns(text, marks, starts)
}

// Of the kinds and starts of a text's tokens. The kinds become marks.
fn marked(
    text: &[u8],
    kinds: &mut [u8],
    starts: &[u16],
    places: &mut [u16],
    sizes: &mut [u16],
) -> Result<Reading, Refusal>
    requires { length text.now ≤ 4096 }
    ensures value { result ≡ read_of text.now kinds.old starts.now }
    ensures kinds_after { kinds.new ≡ marks_of (tokens_in text.now kinds.old starts.now) }
    ensures places_after { places.new ≡ sets places.old 0 (operand_places kinds.new starts.now) }
    ensures sizes_after { sizes.new ≡ sets sizes.old 0 (operand_sizes text.now kinds.new starts.now) }
{
    let asked = operands::mark(text, kinds, starts);
    let count = operands::gather(text, kinds, starts, places, sizes);
    if grammar::too_deep(kinds) {
        return Err(Refusal::Nesting);
    }
    let patterns = patterns_right(text, kinds, starts, asked);
    Ok(Reading {
        tokens: kinds.len(),
        operands: count,
        patterns: patterns,
    })
}

// With an element for the start of each token.
fn read_in<const TOKENS: usize>(
    text: &[u8],
    marks: &mut [u8],
    places: &mut [u16],
    sizes: &mut [u16],
) -> Result<Reading, Refusal>
    requires { (length text.now ≤ 4096 → length text.now ≤ length marks.old) × (length text.now ≤ 4096 → length text.now ≤ TOKENS) × (TOKENS ≤ 4096) }
    ensures reads { Reads text.now marks.new places.new sizes.new result }
    ensures marks_len_unchanged { (length marks.new ≡ length marks.old) × (length places.new ≡ length places.old) × (length sizes.new ≡ length sizes.old) }
{
    let mut array = [0u16; TOKENS];
    let starts = &mut array[..];
    let n = lexer::lex(text, marks, starts)?;
    marked(text, &mut marks[0..n], &starts[0..n], places, sizes)
}

// Reads a text: a refusal of 10, 1, 3 or 6 with its place; else how many tokens and operands it has, whether refusal 18 does not apply, and in the lent arrays, as far as they go, the marks of the tokens and the places and sizes of the operands.
// What the arrays hold after a refusal, and past what is told of, is left free; their lengths stay. A short text has short arrays, since every element of an array is set before it is used.
pub fn read(
    text: &[u8],
    marks: &mut [u8],
    places: &mut [u16],
    sizes: &mut [u16],
) -> Result<Reading, Refusal>
    requires { length text.now ≤ 4096 → length text.now ≤ length marks.old }
    ensures reads { Reads text.now marks.new places.new sizes.new result }
    ensures marks_len_unchanged { (length marks.new ≡ length marks.old) × (length places.new ≡ length places.old) × (length sizes.new ≡ length sizes.old) }
{
    if text.len() <= 64 {
        return read_in::<64>(text, marks, places, sizes);
    }
    if text.len() <= 512 {
        return read_in::<512>(text, marks, places, sizes);
    }
    read_in::<4096>(text, marks, places, sizes)
}

// With an element for each token.
fn place_in<const TOKENS: usize>(text: &[u8], p: usize) -> usize
    requires { (length text.now ≤ 4096 → length text.now ≤ TOKENS) × (TOKENS ≤ 4096) }
    ensures { PlaceOf text.now p result }
{
    let mut kinds = [0u8; TOKENS];
    let mut starts = [0u16; TOKENS];
    match lexer::lex(text, &mut kinds, &mut starts) {
        Ok(n) => {
            if p < n {
                stream::start(&starts, p)
            } else {
                text.len()
            }
        }
        Err(_) => 0,
    }
}

// The start of the token p, or the text's length: the text is lexed again, since refusal 2 alone asks for it. Of a text whose tokens are not legal the answer is left free: no token of it is asked for.
pub fn place(text: &[u8], p: usize) -> usize
    ensures { PlaceOf text.now p result }
{
    if text.len() <= 512 {
        return place_in::<512>(text, p);
    }
    place_in::<4096>(text, p)
}
