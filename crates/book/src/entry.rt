// Entries.
ghost use Rattle.std.specs.Prelude.{◌≡◌, ◌+◌, ◌<◌, true, length, Some as Present};
ghost use Rattle.terms.specs.Sharing.{demand_fits};
ghost use Rattle.book.specs.declared.event.Event.TheVariants.{Entry as Entered};
ghost use Rattle.book.specs.Steps.{with_entry};
ghost use Rattle.book.specs.Judging.{Judgement};
ghost use Rattle.book.specs.Views.{view};
ghost use Rattle.book.specs.Books.{Becomes, objection};

use crate::book::Book;
use crate::event::Entry;
use crate::fault::BookFault;
use crate::figures::is_house;
use crate::sale::Sale;
use award::row::Row;
use terms::quote::Quote;

impl<'a, S: Sale> Book<'a, S> {
    // Judges an entry in an open book, and gives its quote.
    pub(crate) fn judge_entry(&self, entry: Entry) -> Result<S::Quote, BookFault>
        ensures { Judgement (objection self.now (Entered entry)) (λ q. S.Quote.Quote.read entry.quote ≡ Present q) result }
    {
        if entry.series != self.notice().series {
            return Err(BookFault::OtherSeries);
        }
        if !is_house(entry.house) {
            return Err(BookFault::HouseOutOfRange);
        }
        let quote = S::Quote::read(entry.quote)?;
        if !self.takes_lots(entry.lots) {
            return Err(BookFault::LotsOutOfRange);
        }
        if !self.is_timely(entry.second) {
            return Err(BookFault::SecondOutOfRange);
        }
        if self.is_full() {
            return Err(BookFault::NoRowLeft);
        }
        if self.is_out_of_places() {
            return Err(BookFault::NoPlaceLeft);
        }
        Ok(quote)
    }

    // Puts a new bid behind the last used row, and gives its number.
    pub(crate) fn enter(&mut self, entry: Entry, quote: S::Quote) -> u32
        requires room { self.old.used < length self.old.rows.now }
        requires few { self.old.used < 4_096 }
        requires places { self.old.arrivals < 1_000_000 }
        requires lots { demand_fits entry.lots ≡ true }
        ensures result { result ≡ self.old.used + 1 }
        ensures book { Becomes self.old self.new (with_entry (view self.old) entry.house entry.second entry.lots (Present quote)) }
    {
        let at = self.rows_used() as usize;
        let number = self.next_number();
        let row = Row::new(number, entry.house, quote, entry.lots);
        self.rows[at] = row;
        self.used += 1;
        self.arrivals += 1;
        self.last = entry.second;
        number
    }
}
