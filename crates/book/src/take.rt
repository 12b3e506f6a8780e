// The calls on a book.
ghost use Rattle.std.specs.Prelude.{◌≡◌, false, length};
ghost use Rattle.book.specs.Steps.{writes_tables};
ghost use Rattle.book.specs.Books.{Becomes, taken};

use crate::book::Book;
use crate::event::Event;
use crate::fault::BookFault;
use crate::sale::Sale;
use crate::state::State;

impl<'a, S: Sale> Book<'a, S> {
    // Takes an event, with the two work tables that a limit needs. An accepted entry answers the bid's number, all else that is accepted 0. A
    // refusal leaves the book, the rows and the tables as they were; only an accepted limit writes into the tables. (The 0, in place of an
    // `Option`, and the `match` on state and event in this place are rules of the project. Two slices: in a struct behind a `&mut` every contract
    // would also have to say that both are still the caller's own.)
    pub fn take(
        &mut self,
        event: Event,
        demands: &mut [u32],
        shares: &mut [u32],
    ) -> Result<u32, BookFault>
        ensures result { result ≡ (taken self.old (length demands.old) (length shares.old) event).1 }
        ensures book { Becomes self.old self.new (taken self.old (length demands.old) (length shares.old) event).0 }
        ensures tables { writes_tables event result ≡ false → (demands.new ≡ demands.old) × (shares.new ≡ shares.old) }
    {
        match (self.state, event) {
            (State::Open, Event::Entry(entry)) => {
                let quote = self.judge_entry(entry)?;
                Ok(self.enter(entry, quote))
            }
            (State::Open, Event::Change(change)) => {
                let replacement = self.judge_change(change)?;
                self.change_at(change, replacement);
                Ok(0)
            }
            (State::Open, Event::Withdrawal(withdrawal)) => {
                let at = self.judge_withdrawal(withdrawal)?;
                self.withdraw_at(withdrawal, at);
                Ok(0)
            }
            (State::Open, Event::Close { second }) => {
                self.judge_close(second)?;
                self.shut();
                Ok(0)
            }
            (State::Closed, Event::Limit { quote }) => self.award_by(quote, demands, shares),
            _ => Err(BookFault::NotInThisState),
        }
    }
}
