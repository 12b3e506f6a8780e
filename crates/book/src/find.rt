// Where the row of a bid is found.
ghost use Rattle.std.specs.Prelude.{◌≡◌};
ghost use Rattle.book.specs.Places.{place_of};

use award::row::Row;

// The place of the row whose bid stands under a number. (Not inlined: where a change closes the gap at that place, the search would carry the
// gap's length along from row to row.)
#[inline(never)]
pub(crate) fn find<Q: Copy>(rows: &[Row<Q>], number: u32) -> Option<usize>
    ensures { result ≡ place_of number rows.now }
{
    rows.iter()
        .position(|row| row.standing && row.number == number)
}
