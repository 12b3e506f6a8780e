// The notice of an auction, as it is sent and as a book goes by it.

// What a notice says of the auction.
#[derive(Clone, Copy)]
pub struct Notice {
    // the series code
    pub series: [u8; 8],
    // the lots offered
    pub offer: u32,
    // the least lots that a bid may ask for
    pub minimum: u32,
    // the least lots to be placed, or the act is void
    pub least_placement: u32,
    // the least number of bids, or the act is void
    pub least_number: u8,
    // the seconds of the day at which bids are first and last taken
    pub opening: u32,
    pub closing: u32,
}

// A notice as it is sent: with the codes of a kind of quote and of a sharing rule. (They are the bytes that were sent, which may be no kind's
// and no rule's, and are checked against the codes of the type parameters; so no enum stands for them.)
#[derive(Clone, Copy)]
pub struct NoticeFields {
    pub quote_code: u8,
    pub sharing_code: u8,
    pub notice: Notice,
}
