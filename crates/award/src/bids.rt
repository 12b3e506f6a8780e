// The bids among which an offer is awarded.
ghost use Rattle.std.specs.Prelude.{◌≡◌, ◌≤◌, true, length};
ghost use Rattle.terms.specs.Sharing.{most_demands};
ghost use Rattle.award.specs.Rows.{rows_fit};

use crate::row::Row;

// At most 4,096 rows, each of 1 to 1,000,000,000 lots.
#[derive(Drop)]
pub struct Bids<'a, Q> {
    pub rows: &'a [Row<Q>],
    ghost few: { length rows.now ≤ most_demands },
    ghost lots: { rows_fit rows.now ≡ true },
}
