// The book: rows that its owner lends, in which the bids stand in the order of their arrival. (They are lent and their use is counted, since the
// project takes no memory of its own.)
ghost use Rattle.std.specs.Prelude.{◌≡◌, ℕ, ◌<◌, ◌≤◌, true, length, take};
ghost use Rattle.award.specs.Rows.{rows_fit};

use crate::sale::Sale;
use crate::state::State;
use award::row::Row;
use terms::checked::CheckedNotice;

#[derive(Drop)]
pub struct Book<'a, S: Sale> {
    pub(crate) notice: CheckedNotice,
    pub(crate) state: State,
    // how many rows are used, from the first
    pub(crate) used: u32,
    // how many arrival places are given
    pub(crate) arrivals: u32,
    // the last accepted second; 0 before the first
    pub(crate) last: u32,
    pub(crate) rows: &'a mut [Row<S::Quote>],
    ghost fit: { used ≤ length rows.now },
    ghost few: { used ≤ 4_096 },
    ghost places: { arrivals ≤ 1_000_000 },
    ghost lots: { rows_fit (take used rows.now) ≡ true },
}
