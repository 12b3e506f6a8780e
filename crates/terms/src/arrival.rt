// Sharing in arrival order.
ghost use Rattle.std.specs.Prelude.{◌≡◌, ◌-◌, min};
ghost use Rattle.terms.specs.Arrival.{in_arrival_order};
ghost use Rattle.terms.specs.Fairness.{arrival_fair};

use crate::fault::ShareFault;
use crate::sharing::{SharingRule, check};

// Each demand in turn gets the lesser of itself and what is left.
#[derive(Drop)]
pub enum InArrivalOrder {}

impl SharingRule for InArrivalOrder {
    ghost meaning = { in_arrival_order };

    ghost CODE = { 2 };

    ghost fair = { arrival_fair };

    const CODE: u8 = 2;

    fn share(balance: u32, demands: &[u32], shares: &mut [u32]) -> Result<(), ShareFault> {
        check(balance, demands, shares.len())?;
        let mut left = balance;
        // (By place: a zip with `iter_mut` leaves the table's elements unknown.)
        for (i, d) in demands.iter().enumerate() {
            let (given, rest) = serve(*d, left);
            shares[i] = given;
            left = rest;
        }
        Ok(())
    }
}

// What a demand gets of what is left, and what is left after it.
fn serve(demand: u32, left: u32) -> (u32, u32)
    ensures { result ≡ (min demand left, left - min demand left) }
{
    let given = demand.min(left);
    (given, left - given)
}
