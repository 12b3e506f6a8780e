// The print of a sale: a notice and a session, for one kind of quote and one sharing rule.
ghost use Rattle.std.specs.Prelude.{◌≡◌, ◌≤◌, [], ◌∷◌, length};
ghost use Rattle.cabinet.specs.Tables.{Suffices};
ghost use Rattle.wire.specs.declared.call.Call.TheVariants.{Opening};
ghost use Rattle.wire.specs.Reading.{reading};
ghost use Rattle.wire.specs.Writes.{Writes};
ghost use Rattle.print.specs.Lines.{no_act_line};
ghost use Rattle.cabinet.specs.Prints.{without_act, session_print, sale_print};

use crate::act::write_with;
use crate::attend::{MOST_MESSAGES, NO_REFUSAL, attend};
use crate::fault::SessionFault;
use crate::notice::open_notice;
use award::row::Row;
use book::book::Book;
use print::refusal::Refusal;
use print::writer::{write_no_act, write_print};
use terms::checked::CheckedNotice;
use terms::quote::Quote;
use terms::sharing::SharingRule;
use wire::fault::WriteFault;
use wire::reader::Reader;

// How many rows a book has, and how many places its work tables.
pub(crate) const ROWS: usize = 1_024;

// Writes one refusal, and that there is no act.
pub(crate) fn write_refused(refusal: Refusal, space: &mut [u8]) -> Result<usize, WriteFault>
    ensures written { Writes (without_act (refusal ∷ [])) space.old space.new result }
    ensures enough { Suffices (length space.old) result }
{
    write_print(&[refusal], None, space)
}

// The session behind a notice, in a book over these rows.
fn print_session<Q: Quote, R: SharingRule + Drop>(
    reader: &mut Reader<'_>,
    notice: CheckedNotice,
    rows: &mut [Row<Q>],
    space: &mut [u8],
) -> Result<usize, WriteFault>
    ensures written { Writes (session_print Q.Quote.number Q.Quote.read Q.Quote.no_worse R.SharingRule.meaning Q.Quote.CODE R.SharingRule.CODE Q.Quote.word rows.old reader.old.bytes.now notice.notice reader.old.passed reader.old.place) space.old space.new result }
    ensures enough { length Q.Quote.word ≤ 8 → Suffices (length space.old) result }
{
    let mut demands = [0; ROWS];
    let mut shares = [0; ROWS];
    let mut book: Book<'_, (Q, R)> = Book::open(notice, rows);
    let mut places = [NO_REFUSAL; MOST_MESSAGES];
    let log = attend(reader, &mut book, &mut demands, &mut shares, &mut places);
    write_with(log.as_slice(), &book, space)
}

// The print of the sale whose notice and session these bytes are, in a book over these rows.
pub(crate) fn print_sale<Q: Quote, R: SharingRule + Drop>(
    bytes: &[u8],
    rows: &mut [Row<Q>],
    space: &mut [u8],
) -> Result<usize, WriteFault>
    ensures written { Writes (sale_print Q.Quote.number Q.Quote.read Q.Quote.no_worse R.SharingRule.meaning Q.Quote.CODE R.SharingRule.CODE Q.Quote.word rows.old bytes.now) space.old space.new result }
    ensures enough { length Q.Quote.word ≤ 8 → Suffices (length space.old) result }
{
    let mut notice = CheckedNotice::first();
    let mut reader = Reader::new(bytes);
    match open_notice::<Q, R>(&mut reader, &mut notice) {
        Ok(Some(())) => print_session::<Q, R>(&mut reader, notice, rows, space),
        Ok(None) => write_no_act(space),
        Err(fault) => write_refused(fault.into(), space),
    }
}
