// Sharing rules: how a balance is divided among demands, which are given in arrival order.
ghost use Rattle.std.specs.Prelude.{◌≡◌, ℕ, ◌-◌, true, false, List, length, sum, IfOk, IfErr};
ghost use Rattle.terms.specs.declared.fault.ShareFault.TheVariants.{Lots as Unfit};
ghost use Rattle.terms.specs.Grounds.{first, refused};
ghost use Rattle.terms.specs.Sharing.{demand_fits, demands_fit, lots_fit, few, share_grounds, filled, Fair};

use crate::fault::ShareFault;

// A sharing rule, which is a type without values.
pub trait SharingRule {
    // the shares of the demands, in their order, of a balance
    ghost meaning: { List ℕ → ℕ → List ℕ };

    // the rule's code in a notice
    ghost CODE: { ℕ };

    const CODE: u8;

    // Fills the front of the table with the shares and leaves its other places; a refusal leaves it as it was.
    fn share(balance: u32, demands: &[u32], shares: &mut [u32]) -> Result<(), ShareFault>
        ensures refused { refused result ≡ first (share_grounds demands.now balance (length shares.old)) }
        ensures table { shares.new ≡ filled (refused result) (meaning demands.now balance) shares.old };

    // What each rule shows: one share for each demand, none larger than its demand, together the balance. It is a law, which each impl
    // proves, since it stands below the last function.
    ghost fair: { (ds : List ℕ) (s : ℕ) → lots_fit ds s ≡ true → few ds ≡ true → Fair ds s (meaning ds s) };
}

// The most lots that a demand or a balance may have.
pub const MOST_LOTS: u32 = 1_000_000_000;

// The most demands.
pub const MOST_DEMANDS: usize = 4_096;

// Whether a demand is in range.
fn demand_fits(demand: u32) -> bool
    ensures { result ≡ demand_fits demand }
{
    (1..=MOST_LOTS).contains(&demand)
}

// What the demands do not cover of a balance, or that one of them is out of range, in one pass. It is counted down, so that no sum can wrap.
fn left_bare(balance: u32, demands: &[u32]) -> Result<u32, ShareFault>
    ensures fits { IfOk result (λ bare. (demands_fit demands.now ≡ true) × (bare ≡ balance - sum demands.now)) }
    ensures unfit { IfErr result (λ f. (demands_fit demands.now ≡ false) × (f ≡ Unfit)) }
{
    let mut bare = balance;
    for d in demands {
        if !demand_fits(*d) {
            return Err(ShareFault::Lots);
        }
        bare = bare.saturating_sub(*d);
    }
    Ok(bare)
}

// Judges the demands, the balance and the count of places.
pub(crate) fn check(balance: u32, demands: &[u32], places: usize) -> Result<(), ShareFault>
    ensures { refused result ≡ first (share_grounds demands.now balance places) }
{
    if left_bare(balance, demands)? > 0 || balance > MOST_LOTS {
        return Err(ShareFault::Lots);
    }
    if demands.len() > places {
        return Err(ShareFault::ShortTable);
    }
    if demands.len() > MOST_DEMANDS {
        return Err(ShareFault::ManyDemands);
    }
    Ok(())
}
