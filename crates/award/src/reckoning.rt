// What is reckoned of an award before any lot is handed out.
ghost use Rattle.std.specs.Prelude.{◌≡◌};
ghost use Rattle.award.specs.Award.{cut_of};

// Of a cut-off, the quote that every lot pays, and of a balance, the lots left to divide among the bids at the cut-off.
#[derive(Clone, Copy)]
pub enum Reckoning<Q> {
    // The act is void: no cut-off, and no lot for anyone.
    Void,
    // Each bid within the limit gets all its lots, at this cut-off.
    Everyone(Q),
    // Bids better than this cut-off get all their lots, those at it divide this balance, and the others get nothing.
    Divided(Q, u32),
}

impl<Q: Copy> Reckoning<Q> {
    // The cut-off that was reckoned; a void act has none.
    pub(crate) fn cut(self) -> Option<Q>
        ensures { result ≡ cut_of self }
    {
        match self {
            Reckoning::Void => None,
            Reckoning::Everyone(cut) | Reckoning::Divided(cut, _) => Some(cut),
        }
    }
}
