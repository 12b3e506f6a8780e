// The lines of a print, as the pieces that they are made of.
ghost use Rattle.std.specs.Prelude.{◌≡◌};
ghost use Rattle.print.specs.Fits.{RefusalFits, AwardFits, RowFits};
ghost use Rattle.print.specs.Lines.{refusal_line, act_head, outcome_word, row_line, no_act_line};
ghost use Rattle.print.specs.Pieces.{spelled};
ghost use Rattle.print.specs.Texts.{texts};

use crate::head::{Cut, Head};
use crate::piece::Piece;
use crate::refusal::Refusal;
use crate::row::ActRow;
use book::outcome::Outcome;

// The line of a refusal.
pub(crate) fn refusal_line(refusal: &Refusal) -> [Piece<'static>; 7]
    ensures text { texts spelled result ≡ refusal_line refusal.now }
    ensures fits { RefusalFits refusal.now }
{
    let Refusal {
        ordinal,
        number,
        place,
    } = *refusal;
    let gap = Piece::Text(b" ");
    [
        Piece::Text(b"REFUSED "),
        Piece::Number(ordinal as u64),
        gap,
        Piece::Number(number as u64),
        gap,
        Piece::Number(place as u64),
        Piece::Text(b"\n"),
    ]
}

// The head of a void act.
pub(crate) fn void_line<'a>(head: &'a Head<'a>) -> [Piece<'a>; 4]
    ensures { texts spelled result ≡ act_head head.now.series head.now.word.now None }
{
    [
        Piece::Text(&head.series),
        Piece::Text(b" "),
        Piece::Text(head.word),
        Piece::Text(b" VOID\n"),
    ]
}

// The head of an act with a cut-off.
pub(crate) fn cut_line<'a>(head: &'a Head<'a>, award: Cut) -> [Piece<'a>; 10]
    ensures text { texts spelled result ≡ act_head head.now.series head.now.word.now (Some award) }
    ensures fits { AwardFits (Some award) }
{
    let Cut { cut, placed, offer } = award;
    [
        Piece::Text(&head.series),
        Piece::Text(b" "),
        Piece::Text(head.word),
        Piece::Text(b" CUT "),
        Piece::Signed(cut),
        Piece::Text(b" PLACED "),
        Piece::Number(placed),
        Piece::Text(b" OF "),
        Piece::Number(offer as u64),
        Piece::Text(b"\n"),
    ]
}

// The word of an outcome.
fn outcome_word(outcome: Outcome) -> &'static [u8]
    ensures { result.now ≡ outcome_word outcome }
{
    match outcome {
        Outcome::Full(_) => b"FULL",
        Outcome::Part(_) => b"PART",
        Outcome::Worse => b"WORSE",
        Outcome::Over => b"OVER",
        Outcome::Out => b"OUT",
        Outcome::Void => b"VOID",
    }
}

// The line of a row.
pub(crate) fn row_line(row: &ActRow) -> [Piece<'static>; 12]
    ensures text { texts spelled result ≡ row_line row.now }
    ensures fits { RowFits row.now }
{
    let ActRow {
        number,
        house,
        quote,
        lots,
        allotted,
        outcome,
    } = *row;
    let gap = Piece::Text(b" ");
    [
        Piece::Number(number as u64),
        gap,
        Piece::Number(house as u64),
        gap,
        Piece::Signed(quote),
        gap,
        Piece::Number(lots as u64),
        gap,
        Piece::Number(allotted as u64),
        gap,
        Piece::Text(outcome_word(outcome)),
        Piece::Text(b"\n"),
    ]
}

// The line for a book without an act.
pub(crate) fn no_act_line() -> Piece<'static>
    ensures { spelled result ≡ no_act_line }
{
    Piece::Text(b"NO ACT\n")
}
