// What became of a bid.
ghost use Rattle.std.specs.Prelude.{◌≡◌};
ghost use Rattle.book.specs.Outcomes.{outcome_number};

#[derive(Clone, Copy, PartialEq, Eq, Debug)]
pub enum Outcome {
    // It received all its lots, which are these.
    Full(u32),
    // It received fewer lots than it asked for, these; none is fewer too.
    Part(u32),
    // Its quote is worse than the cut-off.
    Worse,
    // Its quote is past the limit.
    Over,
    // It was withdrawn.
    Out,
    // The act is void.
    Void,
}

impl Outcome {
    // The number of the outcome. (A match: `as` takes no enum whose cases have fields.)
    pub fn number(self) -> u8
        ensures { result ≡ outcome_number self }
    {
        match self {
            Outcome::Full(_) => 1,
            Outcome::Part(_) => 2,
            Outcome::Worse => 3,
            Outcome::Over => 4,
            Outcome::Out => 5,
            Outcome::Void => 6,
        }
    }
}
