// Reckoning: whether the act is void, who is served in full, the cut-off and the balance. It reads the rows only.
ghost use Rattle.std.specs.Prelude.{◌≡◌, min, ◌||◌, nat_lt};
ghost use Rattle.award.specs.Award.{balance, everyone_at, divided_at, reckoned};
ghost use Rattle.award.specs.Rows.{standing, terms_of};

use crate::bids::Bids;
use crate::conditions::Conditions;
use crate::demand::standing_count;
use crate::reckoning::Reckoning;
use terms::quote::Quote;

// Whether the act is void, of so many standing bids and such a demand within the limit.
fn is_void(count: usize, demand: u64, conditions: Conditions) -> bool
    ensures { result ≡ (nat_lt count conditions.least_number || nat_lt (min conditions.offer demand) conditions.least_placement) }
{
    count < conditions.least_number as usize
        || demand.min(conditions.offer as u64) < conditions.least_placement as u64
}

// Everyone within the limit is served, at the worst of their quotes.
fn everyone<Q: Quote>(worst: Option<Q>) -> Reckoning<Q>
    ensures { result ≡ everyone_at worst }
{
    worst.map_or(Reckoning::Void, Reckoning::Everyone)
}

impl<'a, Q: Quote> Bids<'a, Q> {
    // What is left of the offer once the bids better than a cut-off have all that they ask for.
    fn balance(&self, offer: u32, cut: Q) -> u32
        ensures { result ≡ balance Q.Quote.no_worse offer cut (standing self.now.rows.now) }
    {
        (offer as u64).saturating_sub(self.demand_better(cut)) as u32
    }

    // The balance is divided at the best quote at which the offer is reached.
    fn divided(&self, offer: u32, best: Option<Q>) -> Reckoning<Q>
        ensures { result ≡ divided_at Q.Quote.no_worse offer (standing self.now.rows.now) best }
    {
        // (A match: with `map_or` the proof does not close, since the closure's contract does not tell which variant it made.)
        match best {
            Some(cut) => Reckoning::Divided(cut, self.balance(offer, cut)),
            None => Reckoning::Void,
        }
    }

    // Reckons the award.
    pub(crate) fn reckon(&self, conditions: Conditions, limit: Q) -> Reckoning<Q>
        ensures { result ≡ reckoned Q.Quote.no_worse (terms_of conditions) limit (standing self.now.rows.now) }
    {
        let count = standing_count(self.rows);
        let demand = self.demand_within(limit);
        if is_void(count, demand, conditions) {
            return Reckoning::Void;
        }
        if demand <= conditions.offer as u64 {
            return everyone(self.worst_within(limit));
        }
        self.divided(conditions.offer, self.best_reaching(conditions.offer))
    }
}
