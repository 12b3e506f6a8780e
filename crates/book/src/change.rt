// Changes.
ghost use Rattle.std.specs.Prelude.{◌≡◌, ◌+◌, ◌-◌, ◌<◌, true, length, Some as Present, slice_set};
ghost use Rattle.terms.specs.Sharing.{demand_fits};
ghost use Rattle.book.specs.declared.event.Event.TheVariants.{Change as Changed};
ghost use Rattle.book.specs.Sheets.{in_use};
ghost use Rattle.book.specs.Steps.{with_change};
ghost use Rattle.book.specs.Places.{place_of, closing, on_rows};
ghost use Rattle.book.specs.Judging.{Judgement};
ghost use Rattle.book.specs.Views.{view};
ghost use Rattle.book.specs.Books.{Becomes, objection};

use crate::book::Book;
use crate::event::Change;
use crate::fault::BookFault;
use crate::figures::is_house;
use crate::sale::Sale;
use award::row::Row;
use terms::quote::Quote;

// What a change needs to be made: the place of its bid's row, and its quote.
#[derive(Clone, Copy)]
pub(crate) struct Replacement<Q> {
    pub(crate) at: usize,
    pub(crate) quote: Q,
}

impl<'a, S: Sale> Book<'a, S> {
    // Judges a change in an open book.
    pub(crate) fn judge_change(&self, change: Change) -> Result<Replacement<S::Quote>, BookFault>
        ensures { Judgement (objection self.now (Changed change)) (λ c. (place_of change.number (in_use (view self.now)) ≡ Present c.at) × (S.Quote.Quote.read change.quote ≡ Present c.quote)) result }
    {
        if !is_house(change.house) {
            return Err(BookFault::HouseOutOfRange);
        }
        let quote = S::Quote::read(change.quote)?;
        if !self.takes_lots(change.lots) {
            return Err(BookFault::LotsOutOfRange);
        }
        let at = self.judge_bid(change.number, change.house)?;
        if !self.is_timely(change.second) {
            return Err(BookFault::SecondOutOfRange);
        }
        if self.is_out_of_places() {
            return Err(BookFault::NoPlaceLeft);
        }
        Ok(Replacement { at, quote })
    }

    // Moves the used rows behind a place up by one.
    fn close_gap(&mut self, at: usize)
        requires { at < self.old.used }
        ensures { Becomes self.old self.new (on_rows (view self.old) (closing self.old.rows.now at (self.old.used - 1))) }
    {
        self.rows.copy_within(at + 1..self.used as usize, at);
    }

    // Writes a row.
    fn put(&mut self, at: usize, row: Row<S::Quote>)
        requires place { at < length self.old.rows.now }
        requires lots { demand_fits row.lots ≡ true }
        ensures { Becomes self.old self.new (on_rows (view self.old) (slice_set self.old.rows.now at row)) }
    {
        self.rows[at] = row;
    }

    // Puts the changed bid of a row behind the last used row.
    pub(crate) fn change_at(&mut self, change: Change, replacement: Replacement<S::Quote>)
        requires found { place_of change.number (in_use (view self.old)) ≡ Present replacement.at }
        requires places { self.old.arrivals < 1_000_000 }
        requires lots { demand_fits change.lots ≡ true }
        ensures { Becomes self.old self.new (with_change (view self.old) change.number change.house change.second change.lots (Present replacement.quote)) }
    {
        let last = (self.used - 1) as usize;
        self.close_gap(replacement.at);
        let quote = replacement.quote;
        let row = Row::new(change.number, change.house, quote, change.lots);
        self.put(last, row);
        self.arrivals += 1;
        self.last = change.second;
    }
}
