// Why a call is refused. Documents 01 and 02 give each refusal a number, and some of them a place; here each is a case with a name of its own.
#![tactic(auto)]

ghost use Rattle.std.specs.Prelude.{◌≡◌};
ghost use Rattle.refusal.specs.Refusal.{number_of, place_of};

#[derive(Clone, Copy, Debug, PartialEq, Eq)]
pub enum Refusal {
    // 1: a token has no legal form. Where it starts, as in the next two.
    Token(usize),
    // 2: the grammar is not kept.
    Grammar(usize),
    // 3: a number or a name is outside its limits.
    Limit(usize),
    // 4: an unknown function, or the wrong arguments.
    Call,
    // 5: the wrong kind of operand.
    Kind,
    // 6: too many parentheses open at once, or too many prefix operators in a row.
    Nesting,
    // 7: over 512 entries.
    Entries,
    // 8: the stack over 32 slots.
    Stack,
    // 9: a lent buffer is too short.
    Buffer,
    // 10: the input is too long.
    Length,
    // 11: no well-formed notice. Where its first fault is.
    Notice(usize),
    // 12: no table that passes the check.
    Table,
    // 13: a name that breaks the rules.
    Name,
    // 14: a name that is there already.
    Present,
    // 15: a notice with too many fields or bytes, or no room for it.
    Room,
    // 16: an unknown kind, or a value whose size is wrong for its kind.
    Size,
    // 17: no such field or entry.
    Index,
    // 18: an ill-formed pattern.
    Pattern,
    // 19: no Staff that could be counted.
    Staff,
    // 20: a ninth person.
    Person,
    // 21: a needed number outside 1..8.
    Needed,
    // 22: a text outside the syntax of UBF(A).
    Syntax,
    // 23: a text that says no notice, or a notice that no text says.
    Content,
    // 24: over 64 tables.
    Tables,
    // 25: an edition other than 1 or 2.
    Edition,
    // 26: bytes that are no store.
    Store,
    // 27: a store that holds 64 tables.
    Numbers,
    // 28: no room in a store.
    StoreRoom,
    // 29: a number that a store does not hold.
    Number,
    // 30: under 8 bytes.
    Header,
}

impl Refusal {
    // The number in the papers; 0 stands for no refusal.
    pub fn number(self) -> u8
        ensures { result ≡ number_of self }
    {
        match self {
            Refusal::Token(_) => 1,
            Refusal::Grammar(_) => 2,
            Refusal::Limit(_) => 3,
            Refusal::Call => 4,
            Refusal::Kind => 5,
            Refusal::Nesting => 6,
            Refusal::Entries => 7,
            Refusal::Stack => 8,
            Refusal::Buffer => 9,
            Refusal::Length => 10,
            Refusal::Notice(_) => 11,
            Refusal::Table => 12,
            Refusal::Name => 13,
            Refusal::Present => 14,
            Refusal::Room => 15,
            Refusal::Size => 16,
            Refusal::Index => 17,
            Refusal::Pattern => 18,
            Refusal::Staff => 19,
            Refusal::Person => 20,
            Refusal::Needed => 21,
            Refusal::Syntax => 22,
            Refusal::Content => 23,
            Refusal::Tables => 24,
            Refusal::Edition => 25,
            Refusal::Store => 26,
            Refusal::Numbers => 27,
            Refusal::StoreRoom => 28,
            Refusal::Number => 29,
            Refusal::Header => 30,
        }
    }

    // The place, 0 where a refusal has none.
    pub fn place(self) -> usize
        ensures { result ≡ place_of self }
    {
        match self {
            Refusal::Token(place) => place,
            Refusal::Grammar(place) => place,
            Refusal::Limit(place) => place,
            Refusal::Notice(place) => place,
            _ => 0,
        }
    }
}
