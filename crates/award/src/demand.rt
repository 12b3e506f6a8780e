// How many bids stand, and what they ask for.
ghost use Rattle.std.specs.Prelude.{◌≡◌, Bool, length};
ghost use Rattle.award.specs.Award.{asked, better, demand};
ghost use Rattle.award.specs.Calls.{IsTest};
ghost use Rattle.award.specs.Rows.{standing};

use crate::bids::Bids;
use crate::quotes::better;
use crate::row::Row;
use terms::quote::Quote;

// How many bids stand. (A sum by a loop: `filter` and `count` take a branch at each row, and `sum` wants a bound of its own.)
pub fn standing_count<Q: Copy>(rows: &[Row<Q>]) -> usize
    ensures { result ≡ length (standing rows.now) }
{
    let mut count = 0;
    for row in rows {
        count += row.standing as usize;
    }
    count
}

impl<'a, Q: Quote> Bids<'a, Q> {
    // What the standing bids at such quotes ask for. (It is a rule of the project that the demand within the limit is summed by a loop over the rows,
    // with index; it serves for the better bids too.)
    fn asked<T: Fn(Q) -> bool>(&self, such: T) -> u64
        requires { T.IsAlwaysCallable such }
        ensures { (test : Q → Bool) → IsTest (T.post such) test → result ≡ asked test (standing self.now.rows.now) }
    {
        let mut total: u64 = 0;
        for i in 0..self.rows.len() {
            total += self.rows[i].lots_where(&such) as u64;
        }
        total
    }

    // The demand within a limit.
    pub(crate) fn demand_within(&self, limit: Q) -> u64
        ensures { result ≡ demand Q.Quote.no_worse limit (standing self.now.rows.now) }
    {
        self.asked(|quote| quote.no_worse(limit))
    }

    // What the bids better than a cut-off ask for.
    pub(crate) fn demand_better(&self, cut: Q) -> u64
        ensures { result ≡ asked (λ q. better Q.Quote.no_worse q cut) (standing self.now.rows.now) }
    {
        self.asked(|quote| better(quote, cut))
    }
}
