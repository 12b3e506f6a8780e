// Handing out: the lots of each row, written at the front of a table.
ghost use Rattle.std.specs.Prelude.{◌≡◌, ◌+◌, ◌<◌, ◌≤◌, ◌&&◌, map, length, slice_set};
ghost use Rattle.terms.specs.Sharing.{laid};
ghost use Rattle.award.specs.Award.{same, demands_at, in_full, dealt, shares_of, handed_out};
ghost use Rattle.award.specs.Rows.{standing, by_row};
ghost use Rattle.award.specs.Handing.{Divisible, Ready};

use crate::quotes::better;
use crate::reckoning::Reckoning;
use crate::row::Row;
use terms::quote::Quote;
use terms::sharing::SharingRule;

// (Each function asks that a lent table is long enough: `award` has judged that once, and the tables are no part of the bids.)

// Nobody gets a lot.
fn serve_none<Q: Quote>(rows: &[Row<Q>], lots: &mut [u32])
    requires { length rows.now ≤ length lots.old }
    ensures { lots.new ≡ laid (by_row rows.now (map (λ b. 0) (standing rows.now))) lots.old }
{
    lots[..rows.len()].fill(0);
}

// Each bid within the limit gets all its lots. (By place, here and in `deal`: a zip with `iter_mut` leaves the table's elements unknown.)
fn serve<Q: Quote>(rows: &[Row<Q>], limit: Q, lots: &mut [u32])
    requires { length rows.now ≤ length lots.old }
    ensures { lots.new ≡ laid (by_row rows.now (in_full Q.Quote.no_worse limit (standing rows.now))) lots.old }
{
    for (i, row) in rows.iter().enumerate() {
        lots[i] = row.lots_where(|quote| quote.no_worse(limit));
    }
}

// Gathers the demands at the cut-off in arrival order, and answers how many there are. (The count is the answer as well as the next place,
// so to filter and enumerate the rows would only count them twice.)
fn gather<Q: Quote>(rows: &[Row<Q>], cut: Q, demands: &mut [u32]) -> usize
    requires { length rows.now ≤ length demands.old }
    ensures count { result ≡ length (demands_at Q.Quote.no_worse cut (standing rows.now)) }
    ensures table { demands.new ≡ laid (demands_at Q.Quote.no_worse cut (standing rows.now)) demands.old }
{
    let mut count = 0;
    for row in rows {
        if row.stands_at(cut) {
            demands[count] = row.lots;
            count += 1;
        }
    }
    count
}

// Asks the sharing rule, which does not refuse.
fn ask<R: SharingRule>(balance: u32, demands: &[u32], shares: &mut [u32])
    requires divisible { Divisible demands.now balance }
    requires places { length demands.now ≤ length shares.old }
    ensures { shares.new ≡ laid (R.SharingRule.meaning demands.now balance) shares.old }
{
    let _ = R::share(balance, demands, shares);
}

// Divides the balance among the bids at the cut-off.
fn divide<Q: Quote, R: SharingRule>(
    rows: &[Row<Q>],
    cut: Q,
    balance: u32,
    demands: &mut [u32],
    shares: &mut [u32],
)
    requires first { length rows.now ≤ length demands.old }
    requires second { length rows.now ≤ length shares.old }
    requires ready { Divisible (demands_at Q.Quote.no_worse cut (standing rows.now)) balance }
    ensures demands { demands.new ≡ laid (demands_at Q.Quote.no_worse cut (standing rows.now)) demands.old }
    ensures shares { shares.new ≡ laid (R.SharingRule.meaning (demands_at Q.Quote.no_worse cut (standing rows.now)) balance) shares.old }
{
    let count = gather(rows, cut, demands);
    ask::<R>(balance, &demands[0..count], shares);
}

// Better bids get all their lots, those at the cut-off the shares in turn, and the others nothing.
fn deal<Q: Quote>(rows: &[Row<Q>], cut: Q, shares: &[u32], lots: &mut [u32])
    requires { length rows.now ≤ length lots.old }
    ensures { lots.new ≡ laid (by_row rows.now (dealt Q.Quote.no_worse cut (standing rows.now) shares.now)) lots.old }
{
    let mut left = shares.iter();
    for (i, row) in rows.iter().enumerate() {
        lots[i] = if row.stands_at(cut) {
            left.next().copied().unwrap_or(0)
        } else {
            row.lots_where(|quote| better(quote, cut))
        };
    }
}

// Writes the lots of each row at the front of the first table, by what was reckoned; the second is the sharing rule's.
pub(crate) fn hand_out<Q: Quote, R: SharingRule>(
    rows: &[Row<Q>],
    limit: Q,
    reckoning: Reckoning<Q>,
    demands: &mut [u32],
    shares: &mut [u32],
)
    requires first { length rows.now ≤ length demands.old }
    requires second { length rows.now ≤ length shares.old }
    requires ready { Ready Q.Quote.no_worse (standing rows.now) reckoning }
    ensures lots { demands.new ≡ laid (by_row rows.now (handed_out Q.Quote.no_worse R.SharingRule.meaning limit (standing rows.now) reckoning)) demands.old }
    ensures shares { shares.new ≡ laid (shares_of Q.Quote.no_worse R.SharingRule.meaning (standing rows.now) reckoning) shares.old }
{
    match reckoning {
        Reckoning::Void => serve_none(rows, demands),
        Reckoning::Everyone(_) => serve(rows, limit, demands),
        Reckoning::Divided(cut, balance) => {
            divide::<Q, R>(rows, cut, balance, demands, shares);
            deal(rows, cut, shares, demands);
        }
    }
}
