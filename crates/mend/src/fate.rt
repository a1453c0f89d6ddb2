// What becomes of a field: "kept, moved, repeated, bad, cut".
ghost use Rattle.std.specs.Prelude.{◌≡◌};
ghost use Rattle.mend.specs.Fate.{code_of, place_of};

// One that stays has its name's place among those kept.
#[derive(Clone, Copy)]
pub(crate) enum Fate {
    Kept(usize),
    Moved(usize),
    Repeated,
    Bad,
    Cut,
}

impl Fate {
    // The place of a field that stays.
    pub(crate) fn place(self) -> Option<usize>
        ensures { result ≡ place_of self }
    {
        match self {
            Fate::Kept(place) | Fate::Moved(place) => Some(place),
            _ => None,
        }
    }
}

// "0..4 in the order above"
impl From<Fate> for u8 {
    ghost from_gives = { λ f n. n ≡ code_of f };

    fn from(fate: Fate) -> u8 {
        match fate {
            Fate::Kept(_) => 0,
            Fate::Moved(_) => 1,
            Fate::Repeated => 2,
            Fate::Bad => 3,
            Fate::Cut => 4,
        }
    }
}
