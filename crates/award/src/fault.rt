// Why an offer is not awarded; the refusal has a number.
ghost use Rattle.std.specs.Prelude.{◌≡◌};
ghost use Rattle.award.specs.Faults.{award_fault_number};

#[derive(Clone, Copy, PartialEq, Eq, Debug)]
pub enum AwardFault {
    // A work table has fewer places than there are rows.
    ShortTable = 16,
}

impl AwardFault {
    // The number of the refusal.
    pub fn number(self) -> u8
        ensures { result ≡ award_fault_number self }
    {
        self as u8
    }
}
