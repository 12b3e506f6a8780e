// The allotments, written into the rows.
ghost use Rattle.std.specs.Prelude.{◌≡◌};
ghost use Rattle.award.specs.Rows.{given_to};

use crate::row::Row;

// Writes the allotment of each row from a list, as far as both go; all else in the rows is as it was, and the rows past the list are not looked
// at. (By place: a zip with `iter_mut` leaves the rows unknown.)
pub fn allot<Q: Copy>(rows: &mut [Row<Q>], lots: &[u32])
    ensures { rows.new ≡ given_to rows.old lots.now }
{
    for (i, row) in rows.iter_mut().enumerate() {
        let Some(lots) = lots.get(i) else {
            return;
        };
        *row = row.with_lots(*lots);
    }
}
