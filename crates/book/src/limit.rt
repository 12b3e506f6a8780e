// The limit, and the award that follows.
ghost use Rattle.std.specs.Prelude.{◌≡◌, ◌≤◌, true, length, take, is_err};
ghost use Rattle.terms.specs.Grounds.{first, refused};
ghost use Rattle.terms.specs.Sharing.{filled};
ghost use Rattle.award.specs.Rows.{terms_of as award_terms, given_to};
ghost use Rattle.book.specs.Questions.{terms_of};
ghost use Rattle.book.specs.Steps.{state_by};
ghost use Rattle.book.specs.Places.{on_rows};
ghost use Rattle.book.specs.Judging.{Judgement, table_grounds};
ghost use Rattle.book.specs.Views.{view};
ghost use Rattle.book.specs.Books.{Becomes, limited, cut_by, lots_by, shares_by};

use crate::book::Book;
use crate::fault::BookFault;
use crate::sale::Sale;
use crate::state::State;
use award::allot::allot;
use award::award::award;
use award::bids::Bids;
use award::conditions::Conditions;
use terms::quote::Quote;

impl<'a, S: Sale> Book<'a, S> {
    // The state after an award.
    fn state_by(limit: S::Quote, cut: Option<S::Quote>) -> State
        ensures { result ≡ state_by S.Quote.Quote.number limit cut }
    {
        State::Decided {
            limit: limit.number(),
            cut: cut.map(|cut| cut.number()),
        }
    }

    // What the award goes by.
    fn conditions(&self) -> Conditions
        ensures { award_terms result ≡ terms_of (view self.now).notice }
    {
        let notice = self.notice();
        Conditions {
            offer: notice.offer,
            least_number: notice.least_number as u32,
            least_placement: notice.least_placement,
        }
    }

    // Awards the offer among the bids in the used rows, and gives the cut-off; the front of the first table then holds the lots of each row.
    fn reckon(
        &self,
        limit: S::Quote,
        demands: &mut [u32],
        shares: &mut [u32],
    ) -> Result<Option<S::Quote>, BookFault>
        ensures answer { Judgement (first (table_grounds self.now.used (length demands.old) (length shares.old))) (λ cut. cut ≡ cut_by self.now limit) result }
        ensures lots { demands.new ≡ filled (refused result) (lots_by self.now limit) demands.old }
        ensures shares { shares.new ≡ filled (refused result) (shares_by self.now limit) shares.old }
    {
        let bids = Bids {
            rows: self.in_use(),
        };
        Ok(award::<S::Quote, S::Rule>(bids, self.conditions(), limit, demands, shares)?)
    }

    // Writes the allotments into the used rows.
    fn allot(&mut self, lots: &[u32])
        requires { self.old.used ≤ length lots.now }
        ensures { Becomes self.old self.new (on_rows (view self.old) (given_to self.old.rows.now (take self.old.used lots.now))) }
    {
        let used = self.used as usize;
        allot(self.rows, &lots[..used]);
    }

    // Takes a limit in a closed book.
    pub(crate) fn award_by(
        &mut self,
        quote: i32,
        demands: &mut [u32],
        shares: &mut [u32],
    ) -> Result<u32, BookFault>
        ensures result { result ≡ (limited self.old (length demands.old) (length shares.old) quote).1 }
        ensures book { Becomes self.old self.new (limited self.old (length demands.old) (length shares.old) quote).0 }
        ensures tables { is_err result ≡ true → (demands.new ≡ demands.old) × (shares.new ≡ shares.old) }
    {
        let limit = S::Quote::read(quote)?;
        let cut = self.reckon(limit, demands, shares)?;
        self.allot(demands);
        self.state = Self::state_by(limit, cut);
        Ok(0)
    }
}
