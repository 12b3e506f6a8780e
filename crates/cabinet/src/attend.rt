// A session from its first message to its last.
ghost use Rattle.std.specs.Prelude.{◌≡◌, ◌≤◌, length};
ghost use Rattle.book.specs.Books.{Becomes};
ghost use Rattle.cabinet.specs.Tables.{as_list};
ghost use Rattle.cabinet.specs.Attended.{refusal_of, refusals_in, goes_past, goes_on};
ghost use Rattle.cabinet.specs.Books.{refusals_on, sheet_after};

use crate::fault::{LowerFault, SessionFault};
use crate::listed::Listed;
use crate::session::attend_one;
use book::book::Book;
use book::sale::Sale;
use print::refusal::Refusal;
use wire::reader::Reader;

// The most messages that 65,536 bytes hold: the shortest has eight.
pub(crate) const MOST_MESSAGES: usize = 8_192;

// A refusal that is not told yet.
pub(crate) const NO_REFUSAL: Refusal = Refusal {
    ordinal: 0,
    number: 0,
    place: 0,
};

// The refusals of a session.
pub(crate) type Log<'a> = Listed<'a, Refusal, MOST_MESSAGES>;

// A refusal as it is printed.
impl From<SessionFault> for Refusal {
    ghost from_gives = { λ f r. r ≡ refusal_of f };

    fn from(fault: SessionFault) -> Refusal {
        Refusal {
            ordinal: fault.ordinal,
            number: fault.number(),
            place: fault.place,
        }
    }
}

// The refusal that an answer is, if it is one.
fn refusal_in(answer: Result<Option<u32>, SessionFault>) -> Option<Refusal>
    ensures { as_list result ≡ refusals_in answer }
{
    answer.err().map(Refusal::from)
}

// Whether the reading goes on after a refusal.
fn goes_past(fault: LowerFault) -> bool
    ensures { result ≡ goes_past fault }
{
    !matches!(fault, LowerFault::Read(_))
}

// Whether the reading goes on after an answer.
fn goes_on(answer: Result<Option<u32>, SessionFault>) -> bool
    ensures { result ≡ goes_on answer }
{
    match answer {
        Ok(number) => number.is_some(),
        Err(fault) => goes_past(fault.fault),
    }
}

// Reads the messages that are left, at most 8,192, and puts each to the book; a refusal by the reader stops the reading. Gives the refusals, in
// these places.
pub(crate) fn attend<'a, S: Sale>(
    reader: &mut Reader<'_>,
    book: &mut Book<'_, S>,
    demands: &mut [u32],
    shares: &mut [u32],
    places: &'a mut [Refusal; MOST_MESSAGES],
) -> Log<'a>
    ensures few { length result ≤ 8_192 }
    ensures refusals { result ≡ refusals_on book.old (length demands.old) (length shares.old) reader.old }
    ensures book { Becomes book.old book.new (sheet_after book.old (length demands.old) (length shares.old) reader.old) }
{
    let mut log = Listed::over(places);
    // (The turn has a name for the proof, which counts the turns that are left by it.)
    for turn in 0..MOST_MESSAGES {
        let answer = attend_one(reader, book, demands, shares);
        log.append(refusal_in(answer));
        if !goes_on(answer) {
            return log;
        }
    }
    log
}
