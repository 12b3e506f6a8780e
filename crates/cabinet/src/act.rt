// The act that a book tells.
ghost use Rattle.std.specs.Prelude.{◌≡◌, ◌≤◌, ◌++◌, length};
ghost use Rattle.book.specs.Sheets.{in_use};
ghost use Rattle.book.specs.Told.{row_of};
ghost use Rattle.book.specs.Views.{view};
ghost use Rattle.print.specs.Lines.{refusal_line, act_text};
ghost use Rattle.print.specs.Texts.{texts};
ghost use Rattle.wire.specs.Writes.{Writes};
ghost use Rattle.cabinet.specs.Tables.{as_list, Suffices};
ghost use Rattle.cabinet.specs.Acts.{outcome_in};
ghost use Rattle.cabinet.specs.Books.{row_on, rows_on, award_on, print_on};

use crate::listed::Listed;
use award::row::Row;
use book::book::Book;
use book::fault::BookFault;
use book::figures::MOST_ROWS;
use book::outcome::Outcome;
use book::sale::Sale;
use print::act::Act;
use print::head::{Cut, Head};
use print::refusal::Refusal;
use print::row::ActRow;
use print::writer::write_print;
use terms::quote::Quote;
use wire::fault::WriteFault;

// The outcome that is told.
fn outcome_in(told: Result<Outcome, BookFault>) -> Outcome
    ensures { result ≡ outcome_in told }
{
    told.unwrap_or(Outcome::Out)
}

// The act's row of a number.
fn act_row<S: Sale>(book: &Book<'_, S>, number: u32) -> Option<ActRow>
    ensures { as_list result ≡ row_on book.now number (row_of number (in_use (view book.now))) }
{
    let row = book.row(number)?;
    Some(ActRow {
        number,
        house: row.house,
        quote: row.quote.number(),
        lots: row.lots,
        allotted: row.allotted,
        outcome: outcome_in(book.outcome(number)),
    })
}

// What became of the offer.
fn award_of<S: Sale>(book: &Book<'_, S>) -> Option<Cut>
    ensures { result ≡ award_on book.now }
{
    let cut = book.cut_off()?;
    Some(Cut {
        cut: cut.number(),
        placed: book.placed(),
        offer: book.notice().offer,
    })
}

// The rows of an act.
type ActRows<'a> = Listed<'a, ActRow, MOST_ROWS>;

// A row that is not told yet.
const NO_ROW: ActRow = ActRow {
    number: 0,
    house: 0,
    quote: 0,
    lots: 0,
    allotted: 0,
    outcome: Outcome::Out,
};

// The act's rows by number, in these places.
fn act_rows<'a, S: Sale>(book: &Book<'_, S>, places: &'a mut [ActRow; MOST_ROWS]) -> ActRows<'a>
    ensures rows { result ≡ rows_on book.now }
    ensures few { length result ≤ (view book.now).used }
{
    let mut rows = Listed::over(places);
    for number in 1..=book.bids_entered() {
        rows.append(act_row(book, number));
    }
    rows
}

// Writes the refusals and an act.
fn write_act_with<'a>(
    refusals: &[Refusal],
    head: Head<'a>,
    rows: &'a [ActRow],
    space: &mut [u8],
) -> Result<usize, WriteFault>
    ensures written { Writes (texts refusal_line refusals.now ++ act_text head.entry rows.now) space.old space.new result }
    ensures enough { length refusals.now ≤ 8_192 → length head.entry.word.now ≤ 8 → length rows.now ≤ 4_096 → Suffices (length space.old) result }
{
    write_print(refusals, Some(Act { head, rows }), space)
}

// Writes the refusals, and what a book tells: its act, or that there is none.
pub(crate) fn write_with<S: Sale>(
    refusals: &[Refusal],
    book: &Book<'_, S>,
    space: &mut [u8],
) -> Result<usize, WriteFault>
    ensures written { Writes (texts refusal_line refusals.now ++ print_on book.now) space.old space.new result }
    ensures enough { length refusals.now ≤ 8_192 → length S.Quote.Quote.word ≤ 8 → Suffices (length space.old) result }
{
    if !book.is_decided() {
        return write_print(refusals, None, space);
    }
    let mut places = [NO_ROW; MOST_ROWS];
    let rows = act_rows(book, &mut places);
    let notice = book.notice();
    let series = notice.series;
    let head = Head {
        series,
        word: S::Quote::word(),
        award: award_of(book),
    };
    write_act_with(refusals, head, rows.as_slice(), space)
}

// Writes what a book tells at the front of the space: its act, or that there is none. The count of the bytes is told, and the rest of the space
// is left; a space that is too short is left as it was.
pub fn write_book<S: Sale>(book: &Book<'_, S>, space: &mut [u8]) -> Result<usize, WriteFault>
    ensures { Writes (print_on book.now) space.old space.new result }
{
    write_with(&[], book, space)
}
