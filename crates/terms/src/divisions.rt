// Four divisions worked by hand: as theorems of the rules, and by the code. (Each has a function of its own, since its contract is that one
// division.)
ghost use Rattle.std.specs.Prelude.{◌≡◌, [], ◌∷◌, replicate};
ghost use Rattle.terms.specs.Divisions.{WorkedDivisions};
ghost use Rattle.terms.specs.Grounds.{first};
ghost use Rattle.terms.specs.Sharing.{share_grounds, filled};

use crate::arrival::InArrivalOrder;
use crate::pro_rata::ProRata;
use crate::sharing::SharingRule;

pub fn divisions_come_out()
    ensures { WorkedDivisions }
{}

// The shares of some demands, by a rule; nothing for anyone where it refuses.
fn shared<R: SharingRule, const N: usize>(balance: u32, demands: &[u32; N]) -> [u32; N]
    ensures { result ≡ filled (first (share_grounds demands.now balance N)) (R.SharingRule.meaning demands.now balance) (replicate N 0) }
{
    let mut shares = [0; N];
    let _ = R::share(balance, demands, &mut shares);
    shares
}

pub fn proportional() -> [u32; 3]
    ensures { result ≡ 24 ∷ 15 ∷ 21 ∷ [] }
{
    shared::<ProRata, 3>(60, &[50, 30, 45])
}

pub fn by_arrival() -> [u32; 3]
    ensures { result ≡ 50 ∷ 10 ∷ 0 ∷ [] }
{
    shared::<InArrivalOrder, 3>(60, &[50, 30, 45])
}

pub fn equal_demands() -> [u32; 3]
    ensures { result ≡ 1 ∷ 1 ∷ 0 ∷ [] }
{
    shared::<ProRata, 3>(2, &[1, 1, 1])
}

pub fn smallest_first() -> [u32; 3]
    ensures { result ≡ 2 ∷ 8 ∷ 7 ∷ [] }
{
    shared::<ProRata, 3>(17, &[2, 9, 9])
}
