// Sharing pro rata. About 32 passes over the demands and no memory: the threshold, the first share at which the remainder runs out,
// is found by bisection, and one more pass deals the shares by it.
ghost use Rattle.std.specs.Prelude.{◌≡◌, ◌+◌, ◌-◌, ◌<◌, ◌≤◌, true, min, ◌++◌, length, drop, if◌then◌else◌, sum_by, sum, nat_eq, nat_lt};
ghost use Rattle.terms.specs.Grounds.{first, refused};
ghost use Rattle.terms.specs.Sharing.{lots_fit, most_lots, most_demands, share_grounds, filled, laid};
ghost use Rattle.terms.specs.ProRata.{pro_rata, first_share, first_shares, room_below, ServedInOrder};
ghost use Rattle.terms.specs.Dealing.{dealt, Threshold, Divisible};
ghost use Rattle.terms.specs.Fairness.{pro_rata_fair};

use crate::fault::ShareFault;
use crate::sharing::{MOST_LOTS, SharingRule, check};

// Each demand gets its part of the balance, rounded down; the remainder goes to the smallest first share first, as far as its demand
// allows, and equal ones are served by arrival.
#[derive(Drop)]
pub enum ProRata {}

impl SharingRule for ProRata {
    ghost meaning = { pro_rata };

    ghost CODE = { 1 };

    ghost fair = { pro_rata_fair };

    const CODE: u8 = 1;

    fn share(balance: u32, demands: &[u32], shares: &mut [u32]) -> Result<(), ShareFault> {
        check(balance, demands, shares.len())?;
        if !demands.is_empty() {
            Division::new(balance, demands).share(shares);
        }
        Ok(())
    }
}

impl ProRata {
    // Fills the front of the table with the first shares and leaves its other places; a refusal leaves it as it was.
    pub fn first_shares(balance: u32, demands: &[u32], firsts: &mut [u32]) -> Result<(), ShareFault>
        ensures refused { refused result ≡ first (share_grounds demands.now balance (length firsts.old)) }
        ensures table { firsts.new ≡ filled (refused result) (first_shares demands.now balance) firsts.old }
    {
        check(balance, demands, firsts.len())?;
        if !demands.is_empty() {
            Division::new(balance, demands).lay_firsts(firsts);
        }
        Ok(())
    }

    // No share is below its first share; and whoever got more than its first share, everyone served before it got its whole demand.
    pub fn serves_in_order()
        ensures { ServedInOrder }
    {}
}

// Some demands and a balance that nothing is against, and the sum of the demands.
#[derive(Clone, Copy)]
struct Division<'a> {
    balance: u32,
    demands: &'a [u32],
    total: u64,
    ghost lots: { lots_fit demands.now balance ≡ true },
    ghost counted: { length demands.now ≤ most_demands },
    ghost is: { total ≡ sum demands.now },
    ghost some: { 0 < total },
    ghost covers: { balance ≤ total },
}

impl<'a> Division<'a> {
    fn new(balance: u32, demands: &'a [u32]) -> Division<'a>
        requires { Divisible demands.now balance }
        ensures balance { result.balance ≡ balance }
        ensures demands { result.demands.now ≡ demands.now }
    {
        Division {
            balance,
            demands,
            total: total_of(demands),
        }
    }

    // Fills the front of the table with the shares.
    fn share(&self, shares: &mut [u32])
        requires { length self.now.demands.now ≤ length shares.old }
        ensures { shares.new ≡ laid (pro_rata self.now.demands.now self.now.balance) shares.old }
    {
        let rest = self.balance as u64 - self.firsts();
        let bound = self.threshold(rest);
        self.deal(bound, rest - self.room_below(bound), shares);
    }

    // A demand's part of the balance, which is no more than the demand: the product before the division.
    fn first_share(&self, demand: u32) -> u32
        ensures value { result ≡ first_share self.now.balance self.now.total demand }
        ensures within { result ≤ demand }
    {
        (demand as u64 * self.balance as u64 / self.total) as u32
    }

    // Fills the front of the table with the first shares. (By place, here and in `deal`: a zip with `iter_mut` leaves the table's elements
    // unknown. Each function asks that the table is long enough, since the table is lent to it and is no part of the division.)
    fn lay_firsts(&self, firsts: &mut [u32])
        requires { length self.now.demands.now ≤ length firsts.old }
        ensures { firsts.new ≡ laid (first_shares self.now.demands.now self.now.balance) firsts.old }
    {
        for (at, d) in self.demands.iter().enumerate() {
            firsts[at] = self.first_share(*d);
        }
    }

    // The sum of the first shares.
    fn firsts(&self) -> u64
        ensures value { result ≡ sum_by (first_share self.now.balance self.now.total) self.now.demands.now }
        ensures within { result ≤ self.now.balance }
        ensures room { self.now.balance - result ≤ room_below (first_share self.now.balance self.now.total) (most_lots + 1) self.now.demands.now }
    {
        self.demands
            .iter()
            .map(|d| self.first_share(*d) as u64)
            .sum()
    }

    // What a demand can still take past its first share, where that is below `bound`.
    fn room_of(&self, demand: u32, bound: u32) -> u64
        ensures { result ≡ (if nat_lt (first_share self.now.balance self.now.total demand) bound then demand - first_share self.now.balance self.now.total demand else 0) }
    {
        let start = self.first_share(demand);
        if start < bound {
            (demand - start) as u64
        } else {
            0
        }
    }

    // What the demands with a first share below `bound` can still take.
    fn room_below(&self, bound: u32) -> u64
        ensures { result ≡ room_below (first_share self.now.balance self.now.total) bound self.now.demands.now }
    {
        self.demands.iter().map(|d| self.room_of(*d, bound)).sum()
    }

    // The first share at which the remainder `rest` runs out, by bisection. (A loop: `partition_point` goes over a slice, and there is none.)
    fn threshold(&self, rest: u64) -> u32
        requires { rest ≤ room_below (first_share self.now.balance self.now.total) (most_lots + 1) self.now.demands.now }
        ensures { Threshold (first_share self.now.balance self.now.total) self.now.demands.now rest result }
    {
        let mut low: u32 = 0;
        let mut high: u32 = MOST_LOTS + 1;
        while high - low > 1 {
            let mid = low + (high - low) / 2;
            if self.room_below(mid) <= rest {
                low = mid;
            } else {
                high = mid;
            }
        }
        low
    }

    // Deals the shares by the threshold `bound`: `left` goes to the demands with that first share, by arrival.
    fn deal(&self, bound: u32, mut left: u64, shares: &mut [u32])
        requires { length self.now.demands.now ≤ length shares.old }
        ensures { shares.new ≡ dealt (first_share self.now.balance self.now.total) bound left self.now.demands.now ++ drop (length self.now.demands.now) shares.old }
    {
        for (i, d) in self.demands.iter().enumerate() {
            let start = self.first_share(*d);
            let more = extra(start, *d, bound, left);
            shares[i] = share_of(start, *d, bound, more);
            left -= more as u64;
        }
    }
}

// The sum of the demands.
fn total_of(demands: &[u32]) -> u64
    requires { length demands.now ≤ most_demands }
    ensures { result ≡ sum demands.now }
{
    demands.iter().map(|d| *d as u64).sum()
}

// What a demand gets of `left` past its first share `start`: some only at the threshold.
fn extra(start: u32, demand: u32, bound: u32, left: u64) -> u32
    requires { start ≤ demand }
    ensures { result ≡ (if nat_eq start bound then min (demand - start) left else 0) }
{
    if start == bound {
        ((demand - start) as u64).min(left) as u32
    } else {
        0
    }
}

// The share of a demand: all of it below the threshold.
fn share_of(start: u32, demand: u32, bound: u32, more: u32) -> u32
    requires { start + more ≤ demand }
    ensures { result ≡ (if nat_lt start bound then demand else start + more) }
{
    if start < bound { demand } else { start + more }
}
