// Why a number is no quote, why demands are not shared, and why a notice is not taken; each refusal has a number. (Each fault, here and in the
// other crates, has its own `number`: a trait cannot say `self as u8` for all of them.)
ghost use Rattle.std.specs.Prelude.{◌≡◌};
ghost use Rattle.terms.specs.Faults.{quote_fault_number, share_fault_number, notice_fault_number};

// Why a number is not read as a quote.
#[derive(Clone, Copy, PartialEq, Eq, Debug)]
pub enum QuoteFault {
    // The number is outside the kind's range.
    OutOfRange = 9,
}

impl QuoteFault {
    // The number of the refusal.
    pub fn number(self) -> u8
        ensures { result ≡ quote_fault_number self }
    {
        self as u8
    }
}

// Why a balance is not divided.
#[derive(Clone, Copy, PartialEq, Eq, Debug)]
pub enum ShareFault {
    // A demand is out of range, or the balance is more than the demands or out of range.
    Lots = 10,
    // The table has fewer places than there are demands.
    ShortTable = 16,
    // There are more demands than a rule takes.
    ManyDemands = 18,
}

impl ShareFault {
    // The number of the refusal.
    pub fn number(self) -> u8
        ensures { result ≡ share_fault_number self }
    {
        self as u8
    }
}

// Why a notice is not taken.
#[derive(Clone, Copy, PartialEq, Eq, Debug)]
pub enum NoticeFault {
    // It is against the rules of a notice.
    AgainstRules = 17,
}

impl NoticeFault {
    // The number of the refusal.
    pub fn number(self) -> u8
        ensures { result ≡ notice_fault_number self }
    {
        self as u8
    }
}
