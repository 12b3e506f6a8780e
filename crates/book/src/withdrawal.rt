// Withdrawals, and how a bid is named in a call.
ghost use Rattle.std.specs.Prelude.{◌≡◌, Some as Present};
ghost use Rattle.terms.specs.Grounds.{first};
ghost use Rattle.award.specs.Rows.{standing};
ghost use Rattle.book.specs.declared.event.Event.TheVariants.{Withdrawal as Withdrawn};
ghost use Rattle.book.specs.Table.{bid_of};
ghost use Rattle.book.specs.Sheets.{in_use};
ghost use Rattle.book.specs.Steps.{with_withdrawal};
ghost use Rattle.book.specs.Places.{place_of};
ghost use Rattle.book.specs.Judging.{Judgement, bid_grounds};
ghost use Rattle.book.specs.Views.{view};
ghost use Rattle.book.specs.Books.{Becomes, objection};

use crate::book::Book;
use crate::event::Withdrawal;
use crate::fault::BookFault;
use crate::figures::is_house;
use crate::find::find;
use crate::sale::Sale;

impl<'a, S: Sale> Book<'a, S> {
    // The place of the row whose bid stands under a number.
    fn place_of(&self, number: u32) -> Option<usize>
        ensures { result ≡ place_of number (in_use (view self.now)) }
    {
        find(self.in_use(), number)
    }

    // Judges the naming of a bid by a house, and gives the place of its row. (That a place is that of a bid stands in each contract, and in no
    // type of places: such a type could not speak of the book that the place was found in.)
    pub(crate) fn judge_bid(&self, number: u32, house: u32) -> Result<usize, BookFault>
        ensures { Judgement (first (bid_grounds house (bid_of number (standing (in_use (view self.now)))))) (λ at. place_of number (in_use (view self.now)) ≡ Present at) result }
    {
        let Some(at) = self.place_of(number) else {
            return Err(BookFault::NoSuchBid);
        };
        if self.rows[at].house != house {
            return Err(BookFault::OtherHouse);
        }
        Ok(at)
    }

    // Judges a withdrawal in an open book, and gives the place of its bid's row.
    pub(crate) fn judge_withdrawal(&self, withdrawal: Withdrawal) -> Result<usize, BookFault>
        ensures { Judgement (objection self.now (Withdrawn withdrawal)) (λ at. place_of withdrawal.number (in_use (view self.now)) ≡ Present at) result }
    {
        if !is_house(withdrawal.house) {
            return Err(BookFault::HouseOutOfRange);
        }
        let at = self.judge_bid(withdrawal.number, withdrawal.house)?;
        if !self.is_timely(withdrawal.second) {
            return Err(BookFault::SecondOutOfRange);
        }
        Ok(at)
    }

    // Marks the bid of a row as withdrawn.
    pub(crate) fn withdraw_at(&mut self, withdrawal: Withdrawal, at: usize)
        requires { place_of withdrawal.number (in_use (view self.old)) ≡ Present at }
        ensures { Becomes self.old self.new (with_withdrawal (view self.old) withdrawal.number withdrawal.second) }
    {
        self.rows[at].standing = false;
        self.last = withdrawal.second;
    }
}
