// A row of a book.
ghost use Rattle.std.specs.Prelude.{◌≡◌, Bool, ◌&&◌};
ghost use Rattle.award.specs.Award.{same};
ghost use Rattle.award.specs.Calls.{IsTest};
ghost use Rattle.award.specs.Rows.{blank_row, new_row, counted, with_lots};

use crate::quotes::same;
use terms::quote::Quote;

// One bid. Rows stand in the order of their bids' arrival; a withdrawn bid keeps its row and stands no more. (A flag, and no `Option`: the act
// shows the last quote and lots of a withdrawn bid too. The range of the lots stands in the contracts and not in the type: `Clone` cannot be
// derived on a generic struct with a ghost field.)
#[derive(Clone, Copy)]
pub struct Row<Q> {
    pub number: u32,
    pub house: u32,
    pub quote: Q,
    pub lots: u32,
    pub standing: bool,
    pub allotted: u32,
}

impl<Q: Copy> Row<Q> {
    // A row of no bid.
    pub fn blank(quote: Q) -> Row<Q>
        ensures { result ≡ blank_row quote }
    {
        Row {
            number: 0,
            house: 0,
            quote,
            lots: 0,
            standing: false,
            allotted: 0,
        }
    }

    // The row of a bid that has just arrived.
    pub fn new(number: u32, house: u32, quote: Q, lots: u32) -> Row<Q>
        ensures { result ≡ new_row number house quote lots }
    {
        Row {
            number,
            house,
            quote,
            lots,
            standing: true,
            allotted: 0,
        }
    }

    // The row with this allotment, and otherwise as it was.
    pub fn with_lots(self, lots: u32) -> Row<Q>
        ensures { result ≡ with_lots lots self }
    {
        Row {
            allotted: lots,
            ..self
        }
    }

    // Whether the bid stands, at such a quote.
    pub(crate) fn stands_where<T: Fn(Q) -> bool>(self, such: T) -> bool
        requires { T.IsAlwaysCallable such }
        ensures { (test : Q → Bool) → IsTest (T.post such) test → result ≡ (self.standing && test self.quote) }
    {
        self.standing && such(self.quote)
    }

    // The lots of a bid that stands at such a quote. (Lots and quote are read before the flag is tested: so a sum over many rows takes no branch at
    // each of them, which would cost more than all else.)
    pub(crate) fn lots_where<T: Fn(Q) -> bool>(self, such: T) -> u32
        requires { T.IsAlwaysCallable such }
        ensures { (test : Q → Bool) → IsTest (T.post such) test → result ≡ counted test self }
    {
        let lots = self.lots;
        let is_such = such(self.quote);
        if self.standing && is_such { lots } else { 0 }
    }
}

impl<Q: Quote> Row<Q> {
    // Whether the bid stands at a cut-off. (By `stands_where` the proof does not close: nothing names the test of a closure made in the call.)
    pub(crate) fn stands_at(self, cut: Q) -> bool
        ensures { result ≡ (self.standing && same Q.Quote.no_worse self.quote cut) }
    {
        self.standing && same(self.quote, cut)
    }
}
