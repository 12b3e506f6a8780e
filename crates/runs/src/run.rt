// A run of calls on a book that is opened for it.
ghost use Rattle.std.specs.Prelude.{◌≡◌, min, drop};
ghost use Rattle.book.specs.Books.{Becomes};
ghost use Rattle.runs.specs.Books.{told, after_call, exchange_on};
ghost use Rattle.runs.specs.Runs.{RunLaw};
ghost use Rattle.runs.specs.declared.call.Call.TheVariants.{Put as Putting};

use crate::call::{Answer, Call, Exchange};
use award::row::Row;
use book::book::Book;
use book::event::Event;
use book::fault::BookFault;
use book::figures::MOST_ROWS;
use book::sale::Sale;
use terms::checked::CheckedNotice;

// The two work tables of a run.
#[derive(Drop)]
struct Tables {
    demands: [u32; MOST_ROWS],
    shares: [u32; MOST_ROWS],
}

// Puts an event to the book, with as many places of two work tables as are named. No more than 4,096 bids are entered, so that 4,096 places
// serve as well as more; the others stay as they were. (Two tables, and not `Tables`: parts of two fields cannot be lent at once behind a reference.)
fn put<S: Sale>(
    book: &mut Book<'_, S>,
    event: Event,
    one: usize,
    other: usize,
    demands: &mut [u32; MOST_ROWS],
    shares: &mut [u32; MOST_ROWS],
) -> Result<Answer<S::Quote>, BookFault>
    ensures answer { result ≡ told book.old (Putting event one other) }
    ensures book { Becomes book.old book.new (after_call book.old (Putting event one other)) }
    ensures demands { drop (min one 4_096) demands.new ≡ drop (min one 4_096) demands.old }
    ensures shares { drop (min other 4_096) shares.new ≡ drop (min other 4_096) shares.old }
{
    let demands = &mut demands[..one.min(MOST_ROWS)];
    let shares = &mut shares[..other.min(MOST_ROWS)];
    Ok(Answer::Accepted(book.take(event, demands, shares)?))
}

// Makes one call on the book.
fn make<S: Sale>(
    book: &mut Book<'_, S>,
    call: Call,
    tables: &mut Tables,
) -> Result<Answer<S::Quote>, BookFault>
    ensures answer { result ≡ told book.old call }
    ensures book { Becomes book.old book.new (after_call book.old call) }
{
    match call {
        Call::Put {
            event,
            demands,
            shares,
        } => put(
            book,
            event,
            demands,
            shares,
            &mut tables.demands,
            &mut tables.shares,
        ),
        Call::Count => Ok(Answer::Count(book.count())),
        Call::Placed => Ok(Answer::Placed(book.placed())),
        Call::CutOff => Ok(Answer::CutOff(book.cut_off())),
        Call::Allotment { number } => Ok(Answer::Allotment(book.allotment(number)?)),
        Call::Outcome { number } => Ok(Answer::Outcome(book.outcome(number)?)),
    }
}

// Makes the call of an exchange, and puts its answer beside it.
fn fill<S: Sale>(book: &mut Book<'_, S>, exchange: &mut Exchange<S::Quote>, tables: &mut Tables)
    ensures answer { exchange.new ≡ exchange_on book.old exchange.old }
    ensures book { Becomes book.old book.new (after_call book.old exchange.old.call) }
{
    exchange.answer = Some(make(book, exchange.call, tables));
}

// Opens a book on the notice over the rows, makes each call in turn, takes each refusal, and puts each answer beside its call.
pub fn run<S: Sale>(
    notice: CheckedNotice,
    rows: &mut [Row<S::Quote>],
    calls: &mut [Exchange<S::Quote>],
)
    ensures { RunLaw S.Quote.Quote.number S.Quote.Quote.read S.Quote.Quote.no_worse S.Rule.SharingRule.meaning notice.notice rows.old calls.old rows.new calls.new }
{
    let mut book: Book<'_, S> = Book::open(notice, rows);
    let mut tables = Tables {
        demands: [0; MOST_ROWS],
        shares: [0; MOST_ROWS],
    };
    for exchange in calls.iter_mut() {
        fill(&mut book, exchange, &mut tables);
    }
}
