// The award.
ghost use Rattle.std.specs.Prelude.{◌≡◌, length};
ghost use Rattle.terms.specs.Grounds.{first, refused};
ghost use Rattle.terms.specs.Sharing.{filled};
ghost use Rattle.award.specs.Award.{cut_off};
ghost use Rattle.award.specs.Rows.{standing, terms_of, lots_by_row, shares_at_cut};
ghost use Rattle.award.specs.Faults.{award_grounds, answered};

use crate::bids::Bids;
use crate::conditions::Conditions;
use crate::fault::AwardFault;
use crate::hand_out::hand_out;
use terms::quote::Quote;
use terms::sharing::SharingRule;

// Judges the work tables: each needs a place for each row.
fn check_tables(rows: usize, demands: usize, shares: usize) -> Result<(), AwardFault>
    ensures { refused result ≡ first (award_grounds rows demands shares) }
{
    if demands < rows || shares < rows {
        return Err(AwardFault::ShortTable);
    }
    Ok(())
}

// Awards the offer among the bids, and answers the cut-off, which is absent in a void act. The front of the first table then holds the
// lots of each row, that of the second the shares at the cut-off, and their other places are as they were. It is refused exactly where a
// table is shorter than the rows; both are then as they were. (The tables stay two slices: in a struct behind a `&mut` every contract would
// also have to say that both are still the caller's own.)
pub fn award<'a, Q: Quote, R: SharingRule>(
    bids: Bids<'a, Q>,
    conditions: Conditions,
    limit: Q,
    demands: &mut [u32],
    shares: &mut [u32],
) -> Result<Option<Q>, AwardFault>
    ensures answer { result ≡ answered (first (award_grounds (length bids.entry.rows.now) (length demands.old) (length shares.old))) (cut_off Q.Quote.no_worse (terms_of conditions) limit (standing bids.entry.rows.now)) }
    ensures lots { demands.new ≡ filled (refused result) (lots_by_row Q.Quote.no_worse R.SharingRule.meaning (terms_of conditions) limit bids.entry.rows.now) demands.old }
    ensures shares { shares.new ≡ filled (refused result) (shares_at_cut Q.Quote.no_worse R.SharingRule.meaning (terms_of conditions) limit bids.entry.rows.now) shares.old }
{
    check_tables(bids.rows.len(), demands.len(), shares.len())?;
    let reckoning = bids.reckon(conditions, limit);
    hand_out::<Q, R>(bids.rows, limit, reckoning, demands, shares);
    Ok(reckoning.cut())
}
