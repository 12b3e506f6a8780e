// The division carried out, and the report of it.
ghost use Rattle.std.specs.Prelude.{◌≡◌, length};
ghost use Rattle.terms.specs.Grounds.{first, refused};
ghost use Rattle.terms.specs.Sharing.{share_grounds, filled};
ghost use Rattle.share.specs.Shares.{shares_by};

use crate::complaint::{Complaint, Word};
use crate::division::{Division, Rule, read};
use std::alloc::{AllocError, Global};
use std::ops::Add;
use terms::arrival::InArrivalOrder;
use terms::fault::ShareFault;
use terms::pro_rata::ProRata;
use terms::sharing::{MOST_DEMANDS, MOST_LOTS, SharingRule};

// The report of the division that the words ask for.
pub fn run(heap: Global, words: &[String]) -> Result<String, Complaint> {
    let division = read(heap, words)?;
    let n = division.demands.len();
    let mut firsts = vec![in heap; 0u32; n]?;
    let mut shares = vec![in heap; 0u32; n]?;
    match divide(&division, firsts.as_mut_slice(), shares.as_mut_slice()) {
        Ok(()) => Ok(report(heap, &division, firsts.as_slice(), shares.as_slice())?),
        Err(fault) => {
            let place = blamed(fault, division.demands.as_slice());
            let word = words
                .get(place.saturating_sub(1))
                .map_or("", |word| word.as_str());
            let text = String::from_str(heap, word)?;
            Err(Complaint::Refused(fault, Word { place, text }))
        }
    }
}

// Fills one table with the first shares, where the rule has any, and the other with the shares. (Tables beside the demands, since a rule fills a
// lent table of numbers.)
fn divide(division: &Division, firsts: &mut [u32], shares: &mut [u32]) -> Result<(), ShareFault>
    requires { length firsts.old ≡ length shares.old }
    ensures refused { refused result ≡ first (share_grounds division.now.demands.items division.now.balance (length shares.old)) }
    ensures table { shares.new ≡ filled (refused result) (shares_by division.now.rule division.now.demands.items division.now.balance) shares.old }
{
    let demands = division.demands.as_slice();
    match division.rule {
        Rule::ProRata => {
            ProRata::first_shares(division.balance, demands, firsts)?;
            ProRata::share(division.balance, demands, shares)
        }
        Rule::InArrivalOrder => InArrivalOrder::share(division.balance, demands, shares),
    }
}

// The place of the word that a refusal is about: a demand that is out of range, the first demand too many, or else the balance.
fn blamed(fault: ShareFault, demands: &[u32]) -> usize {
    match fault {
        ShareFault::Lots => demands
            .iter()
            .position(|d| !(1..=MOST_LOTS).contains(d))
            .map_or(2, |i| i.saturating_add(3)),
        ShareFault::ManyDemands => MOST_DEMANDS + 3,
        ShareFault::ShortTable => 2,
    }
}

// What a line shows: a demand, its first share and its share, or their sums.
#[derive(Clone, Copy, Default)]
struct Lots {
    demand: u64,
    first: u64,
    share: u64,
}

impl Add for Lots {
    type Output = Lots;

    fn add(self, other: Lots) -> Lots {
        Lots {
            demand: self.demand.saturating_add(other.demand),
            first: self.first.saturating_add(other.first),
            share: self.share.saturating_add(other.share),
        }
    }
}

// A head line, a line for each demand, and the sums.
fn report(
    heap: Global,
    division: &Division,
    firsts: &[u32],
    shares: &[u32],
) -> Result<String, AllocError> {
    let mut text = String::from_str(heap, head(division.rule))?;
    let mut sums = Lots::default();
    for (i, ((demand, first), share)) in division
        .demands
        .iter()
        .zip(firsts.iter())
        .zip(shares.iter())
        .enumerate()
    {
        let lots = Lots {
            demand: *demand as u64,
            first: *first as u64,
            share: *share as u64,
        };
        let place = format!(in heap; "{}", i.saturating_add(1))?;
        text.push_str(line(heap, division.rule, place.as_str(), lots)?.as_str())?;
        sums = sums + lots;
    }
    text.push_str(line(heap, division.rule, "sum", sums)?.as_str())?;
    Ok(text)
}

// What stands in the columns; only pro rata has first shares.
fn head(rule: Rule) -> &'static str {
    match rule {
        Rule::ProRata => "place        demand   first share         share\n",
        Rule::InArrivalOrder => "place        demand         share\n",
    }
}

fn line(heap: Global, rule: Rule, place: &str, lots: Lots) -> Result<String, AllocError> {
    let Lots {
        demand,
        first,
        share,
    } = lots;
    match rule {
        Rule::ProRata => format!(in heap; "{place:>5} {demand:>13} {first:>13} {share:>13}\n"),
        Rule::InArrivalOrder => format!(in heap; "{place:>5} {demand:>13} {share:>13}\n"),
    }
}
