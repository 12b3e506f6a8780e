// The state of a book.

#[derive(Clone, Copy)]
pub enum State {
    // Bids are taken.
    Open,
    // Bids are no longer taken; the limit is awaited.
    Closed,
    // The award was made: the numbers of the limit and of the cut-off, which is absent in a void act. (A book that held a quote by value
    // could not tell whoever lent the rows what they hold: a quote of any kind might hold a reference.)
    Decided { limit: i32, cut: Option<i32> },
}
