// The figures that calls are judged by.
ghost use Rattle.std.specs.Prelude.{◌≡◌, ◌+◌, nat_le};
ghost use Rattle.terms.specs.Tests.{between};
ghost use Rattle.book.specs.Table.{rows_used, numbers_given};
ghost use Rattle.book.specs.Sheets.{in_use};
ghost use Rattle.book.specs.Views.{view};
ghost use Rattle.book.specs.Books.{past, room, timely_in};

use crate::book::Book;
use crate::sale::Sale;
use award::row::Row;
use terms::notice::Notice;

// The most rows that a book uses, and so the most bids that are entered.
pub const MOST_ROWS: usize = 4_096;

// The most arrival places that a book gives.
const MOST_PLACES: u32 = 1_000_000;

// Whether a house code is 1 to 9,999.
pub(crate) fn is_house(house: u32) -> bool
    ensures { result ≡ between 1 house 9_999 }
{
    (1..=9_999).contains(&house)
}

impl<'a, S: Sale> Book<'a, S> {
    // The notice on which the book was opened.
    pub fn notice(&self) -> Notice
        ensures { result ≡ (view self.now).notice }
    {
        self.notice.notice()
    }

    // The used rows.
    pub(crate) fn in_use(&self) -> &[Row<S::Quote>]
        ensures { result.now ≡ in_use (view self.now) }
    {
        &self.rows[..self.used as usize]
    }

    // How many bids were entered, withdrawn ones too.
    pub fn bids_entered(&self) -> u32
        ensures { result ≡ (past self.now).entered }
    {
        self.used
    }

    // How many rows are used: each bid entered keeps its own. (A function for each count that the rules name, though all are one field.)
    pub(crate) fn rows_used(&self) -> u32
        ensures { result ≡ rows_used (past self.now) }
    {
        self.used
    }

    // How many numbers are given: each bid entered keeps its own.
    pub(crate) fn numbers_given(&self) -> u32
        ensures { result ≡ numbers_given (past self.now) }
    {
        self.used
    }

    // The number of the next bid.
    pub(crate) fn next_number(&self) -> u32
        ensures { result ≡ numbers_given (past self.now) + 1 }
    {
        self.numbers_given() + 1
    }

    // Whether lots are between the minimum bid and the offer.
    pub(crate) fn takes_lots(&self, lots: u32) -> bool
        ensures { result ≡ between (view self.now).notice.minimum lots (view self.now).notice.offer }
    {
        let notice = self.notice();
        (notice.minimum..=notice.offer).contains(&lots)
    }

    // Whether bids are taken at a second, which is not before the last accepted one.
    pub(crate) fn is_timely(&self, second: u32) -> bool
        ensures { result ≡ timely_in self.now second }
    {
        let notice = self.notice();
        (notice.opening..=notice.closing).contains(&second) && self.last <= second
    }

    // Whether every row is used.
    pub(crate) fn is_full(&self) -> bool
        ensures { result ≡ nat_le (room self.now) (rows_used (past self.now)) }
    {
        self.rows.len().min(MOST_ROWS) <= self.rows_used() as usize
    }

    // Whether every arrival place is given.
    pub(crate) fn is_out_of_places(&self) -> bool
        ensures { result ≡ nat_le 1_000_000 (view self.now).arrivals }
    {
        MOST_PLACES <= self.arrivals
    }
}
