// What may be put to a book.

// A new bid.
#[derive(Clone, Copy)]
pub struct Entry {
    pub series: [u8; 8],
    pub house: u32,
    pub second: u32,
    pub quote: i32,
    pub lots: u32,
}

// New terms for the bid of a number, which comes last in arrival order by it.
#[derive(Clone, Copy)]
pub struct Change {
    pub number: u32,
    pub house: u32,
    pub second: u32,
    pub quote: i32,
    pub lots: u32,
}

// The bid of a number is taken back.
#[derive(Clone, Copy)]
pub struct Withdrawal {
    pub number: u32,
    pub house: u32,
    pub second: u32,
}

#[derive(Clone, Copy)]
pub enum Event {
    Entry(Entry),
    Change(Change),
    Withdrawal(Withdrawal),
    // No more bids are taken.
    Close { second: u32 },
    // The worst quote that the issuer takes: the award follows.
    Limit { quote: i32 },
}
