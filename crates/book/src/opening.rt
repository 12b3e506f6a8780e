// The opening of a book.
ghost use Rattle.std.specs.Prelude.{◌≡◌};
ghost use Rattle.book.specs.Sheets.{opened};
ghost use Rattle.book.specs.Views.{view};

use crate::book::Book;
use crate::sale::Sale;
use crate::state::State;
use award::row::Row;
use terms::checked::CheckedNotice;

impl<'a, S: Sale> Book<'a, S> {
    // Opens a book on a notice, over rows of which it uses at most the first 4,096. It neither reads nor alters a row.
    pub fn open(notice: CheckedNotice, rows: &'a mut [Row<S::Quote>]) -> Book<'a, S>
        ensures value { view result ≡ opened notice.notice rows.old }
        ensures same { result.rows.ghost_name ≡ rows.entry.ghost_name }
    {
        Book {
            notice,
            state: State::Open,
            used: 0,
            arrivals: 0,
            last: 0,
            rows,
        }
    }
}
