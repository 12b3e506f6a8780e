// The two quotes that may be the cut-off. The best at which the offer is reached takes a pass over the rows for each of them.
ghost use Rattle.std.specs.Prelude.{◌≡◌, Bool};
ghost use Rattle.award.specs.Award.{earlier, foremost, worst_within, best_reaching};
ghost use Rattle.award.specs.Calls.{IsOrder, IsTest};
ghost use Rattle.award.specs.Rows.{standing};

use crate::bids::Bids;
use terms::quote::Quote;

// Of a quote and another that may be absent, the one that comes before the other.
fn earlier<Q: Copy, B: Fn(Q, Q) -> bool>(before: B, quote: Q, other: Option<Q>) -> Q
    requires { B.IsAlwaysCallable before }
    ensures { (order : Q → Q → Bool) → IsOrder (B.post before) order → result ≡ earlier order quote other }
{
    other.map_or(
        quote,
        |other| if before(quote, other) { quote } else { other },
    )
}

impl<'a, Q: Quote> Bids<'a, Q> {
    // Of the standing bids' quotes that are such, the one that comes before all others, sought from the last row to the first.
    fn foremost<B: Fn(Q, Q) -> bool, T: Fn(Q) -> bool>(&self, before: B, such: T) -> Option<Q>
        requires order { B.IsAlwaysCallable before }
        requires test { T.IsAlwaysCallable such }
        ensures { (order : Q → Q → Bool) (test : Q → Bool) → IsOrder (B.post before) order → IsTest (T.post such) test
            → result ≡ foremost order test (standing self.now.rows.now) }
    {
        let mut found = None;
        for row in self.rows.iter().rev() {
            if row.stands_where(&such) {
                found = Some(earlier(&before, row.quote, found));
            }
        }
        found
    }

    // The worst quote within a limit.
    pub(crate) fn worst_within(&self, limit: Q) -> Option<Q>
        ensures { result ≡ worst_within Q.Quote.no_worse limit (standing self.now.rows.now) }
    {
        self.foremost(
            |quote, other| other.no_worse(quote),
            |quote| quote.no_worse(limit),
        )
    }

    // The best quote at which the bids of that quote or better ask for at least the offer.
    pub(crate) fn best_reaching(&self, offer: u32) -> Option<Q>
        ensures { result ≡ best_reaching Q.Quote.no_worse offer (standing self.now.rows.now) }
    {
        self.foremost(
            |quote, other| quote.no_worse(other),
            |quote| self.demand_within(quote) >= offer as u64,
        )
    }
}
