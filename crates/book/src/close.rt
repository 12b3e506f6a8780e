// The close.
ghost use Rattle.std.specs.Prelude.{◌≡◌, Some as Present};
ghost use Rattle.book.specs.declared.event.Event.TheVariants.{Close};
ghost use Rattle.book.specs.Steps.{with_close};
ghost use Rattle.book.specs.Judging.{Judgement};
ghost use Rattle.book.specs.Views.{view};
ghost use Rattle.book.specs.Books.{Becomes, objection};

use crate::book::Book;
use crate::fault::BookFault;
use crate::sale::Sale;
use crate::state::State;
use terms::check::LAST_SECOND;

impl<'a, S: Sale> Book<'a, S> {
    // Judges the close of an open book.
    pub(crate) fn judge_close(&self, second: u32) -> Result<(), BookFault>
        ensures { Judgement (objection self.now (Close second)) (λ _. Unit {0}) result }
    {
        if !(self.notice().closing..=LAST_SECOND).contains(&second) {
            return Err(BookFault::SecondOutOfRange);
        }
        Ok(())
    }

    // Ends the taking of bids.
    pub(crate) fn shut(&mut self)
        ensures { Becomes self.old self.new (with_close (view self.old)) }
    {
        self.state = State::Closed;
    }
}
