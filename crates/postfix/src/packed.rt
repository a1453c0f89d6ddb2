// The answer of a step of the parser in one register, since what is answered so takes no room in the frames of the recursion.
ghost use Rattle.std.specs.Prelude.{◌≡◌, ◌<◌, ◌≤◌, max};
ghost use Rattle.grammar.specs.Judge.{is_name, is_text, is_folding};
ghost use Rattle.postfix.specs.Packed.{packed, next_in, end_in, known_in, bit, know, logic_bit, forms_bit, kinds_bit, form_bits, form_number, depth_bits, count_bits, counted_to, broken_at};
ghost use Rattle.postfix.specs.Packed.{broken as brokenIn};
ghost use Rattle.postfix.specs.Form.{form_of};

// The form of an argument, as refusal 4 asks.
#[derive(Clone, Copy)]
pub enum Form {
    Other,
    Name,
    Text,
    Folding,
}

impl Form {
    fn number(self) -> u64
        ensures { (result ≡ form_number (form_of self)) × (result < 4) }
    {
        match self {
            Form::Other => 0,
            Form::Name => 1,
            Form::Text => 2,
            Form::Folding => 3,
        }
    }

    pub fn is_name(self) -> bool
        ensures { result ≡ is_name (form_of self) }
    {
        matches!(self, Form::Name)
    }

    pub fn is_text(self) -> bool
        ensures { result ≡ is_text (form_of self) }
    {
        matches!(self, Form::Text)
    }

    pub fn is_folding(self) -> bool
        ensures { result ≡ is_folding (form_of self) }
    {
        matches!(self, Form::Folding)
    }
}

// What is known of an expression: whether it is logic, whether the refusals 4 and 5 do not apply, its form, how many slots it holds at once, and of arguments their number.
#[derive(Clone, Copy)]
pub struct Known(pub u64);

// The next token, the next code, and what is known; or the token at which an expression cannot go on.
#[derive(Clone, Copy)]
pub struct Packed(pub u64);

fn wide(x: usize) -> u64
    ensures { result ≡ x }
{
    x as u64
}

fn bit_of(b: bool) -> u64
    ensures { (result ≡ bit b) × (result ≤ 1) }
{
    if b { 1 } else { 0 }
}

// The larger of two counts of slots. They are counted up to 63: more than 32 are refused.
pub fn deeper(a: u64, b: u64) -> u64
    requires { a < 64 }
    ensures { (result ≡ max a (counted_to b)) × (result < 64) }
{
    a.max(b.min(63))
}

impl Packed {
    pub fn new(next: usize, end: usize, known: Known) -> Packed
        requires { (next ≤ 65536) × (end ≤ 65536) × (known.0 ≤ 2147483648) }
        ensures { result.0 ≡ packed next end known.0 }
    {
        Packed(wide(next) + 65536 * (wide(end) + 65536 * known.0))
    }

    // An expression that cannot go on at a token.
    pub fn broken_at(place: usize) -> Packed
        requires { place ≤ 65536 }
        ensures { result.0 ≡ broken_at place }
    {
        Packed::new(place, 0, Known(128))
    }

    pub fn next(self) -> usize
        ensures { (result ≡ next_in self.0) × (result < 65536) }
    {
        (self.0 % 65536) as usize
    }

    pub fn end(self) -> usize
        ensures { (result ≡ end_in self.0) × (result < 65536) }
    {
        (self.0 / 65536 % 65536) as usize
    }

    pub fn known(self) -> Known
        ensures { result.0 ≡ known_in self.0 }
    {
        Known(self.0 / 4294967296)
    }

    pub fn broken(self) -> bool
        ensures { result ≡ brokenIn self.0 }
    {
        self.0 / 4294967296 / 128 % 2 == 1
    }
}

impl Known {
    pub fn new(logic: bool, forms: bool, kinds: bool, form: Form, depth: u64) -> Known
        requires { depth < 64 }
        ensures { (result.0 ≡ know logic forms kinds (form_number (form_of form)) depth) × (result.0 < 1073741824) }
    {
        Known(
            bit_of(logic)
                + 2 * bit_of(forms)
                + 4 * bit_of(kinds)
                + 8 * form.number()
                + 16777216 * depth,
        )
    }

    pub fn logic(self) -> bool
        ensures { result ≡ logic_bit self.0 }
    {
        self.0 % 2 == 1
    }

    pub fn forms(self) -> bool
        ensures { result ≡ forms_bit self.0 }
    {
        self.0 / 2 % 2 == 1
    }

    pub fn kinds(self) -> bool
        ensures { result ≡ kinds_bit self.0 }
    {
        self.0 / 4 % 2 == 1
    }

    pub fn form(self) -> Form
        ensures { form_number (form_of result) ≡ form_bits self.0 }
    {
        match self.0 / 8 % 4 {
            0 => Form::Other,
            1 => Form::Name,
            2 => Form::Text,
            _ => Form::Folding,
        }
    }

    pub fn depth(self) -> u64
        ensures { (result ≡ depth_bits self.0) × (result < 64) }
    {
        self.0 / 16777216 % 64
    }

    pub fn count(self) -> u64
        ensures { (result ≡ count_bits self.0) × (result < 65536) }
    {
        self.0 / 256 % 65536
    }
}
