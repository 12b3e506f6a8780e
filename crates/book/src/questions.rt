// What a book tells.
ghost use Rattle.std.specs.Prelude.{◌≡◌, ◌≤◌, length, sum_by};
ghost use Rattle.terms.specs.Grounds.{first};
ghost use Rattle.book.specs.Table.{is_decided, was_given};
ghost use Rattle.book.specs.Outcomes.{outcome_by, past_limit};
ghost use Rattle.book.specs.Questions.{number_grounds};
ghost use Rattle.book.specs.Sheets.{in_use, phase_of, limit_of};
ghost use Rattle.book.specs.Told.{row_of, sheet_count, sheet_placed};
ghost use Rattle.book.specs.Judging.{Judgement};
ghost use Rattle.book.specs.Views.{view};
ghost use Rattle.book.specs.Books.{past, told_cut, told_allotment, told_outcome, told_row_outcome};

use crate::book::Book;
use crate::fault::BookFault;
use crate::outcome::Outcome;
use crate::sale::Sale;
use crate::state::State;
use award::demand::standing_count;
use award::row::Row;
use terms::quote::Quote;

// The sum of the allotments.
fn sum_allotted<Q: Copy>(rows: &[Row<Q>]) -> u64
    requires { length rows.now ≤ 4_096 }
    ensures { result ≡ sum_by (λ x. x.allotted) rows.now }
{
    rows.iter().map(|row| row.allotted as u64).sum()
}

// The row of a number, withdrawn or not. (A loop: `copied` and `find` copy each row that they pass.)
fn row_of<Q: Copy>(rows: &[Row<Q>], number: u32) -> Option<Row<Q>>
    ensures { result ≡ row_of number rows.now }
{
    for row in rows {
        if row.number == number {
            return Some(*row);
        }
    }
    None
}

// Whether a quote is past a limit.
fn is_past<Q: Quote>(limit: Option<Q>, quote: Q) -> bool
    ensures { result ≡ past_limit Q.Quote.no_worse limit quote }
{
    limit.is_some_and(|limit| !quote.no_worse(limit))
}

// The outcome of a standing bid.
fn outcome_by<Q: Quote>(limit: Option<Q>, cut: Option<Q>, quote: Q, asked: u32, got: u32) -> Outcome
    ensures { result ≡ outcome_by Q.Quote.no_worse limit cut quote asked got }
{
    let Some(cut) = cut else {
        return Outcome::Void;
    };
    if is_past(limit, quote) {
        return Outcome::Over;
    }
    if !quote.no_worse(cut) {
        return Outcome::Worse;
    }
    if got < asked {
        return Outcome::Part(got);
    }
    Outcome::Full(got)
}

// A quote that was kept as its number.
fn kept<Q: Quote>(number: i32) -> Option<Q>
    ensures { result ≡ Q.Quote.read number }
{
    Q::read(number).ok()
}

impl<'a, S: Sale> Book<'a, S> {
    // How many bids stand.
    pub fn count(&self) -> usize
        ensures { result ≡ sheet_count (view self.now) }
    {
        standing_count(self.in_use())
    }

    // The placed lots: the sum of the allotments.
    pub fn placed(&self) -> u64
        ensures { result ≡ sheet_placed (view self.now) }
    {
        sum_allotted(self.in_use())
    }

    // The row of a number, withdrawn or not.
    pub fn row(&self, number: u32) -> Option<Row<S::Quote>>
        ensures { result ≡ row_of number (in_use (view self.now)) }
    {
        row_of(self.in_use(), number)
    }

    // Whether the award was made, or the act is void.
    pub fn is_decided(&self) -> bool
        ensures { result ≡ is_decided (phase_of (view self.now).state) }
    {
        matches!(self.state, State::Decided { .. })
    }

    // The cut-off; none before the award and in a void act.
    pub fn cut_off(&self) -> Option<S::Quote>
        ensures { result ≡ told_cut self.now }
    {
        match self.state {
            State::Decided { cut: Some(cut), .. } => kept(cut),
            _ => None,
        }
    }

    // The limit that was accepted.
    fn limit_taken(&self) -> Option<S::Quote>
        ensures { result ≡ limit_of S.Quote.Quote.read (view self.now).state }
    {
        match self.state {
            State::Decided { limit, .. } => kept(limit),
            _ => None,
        }
    }

    // Judges a question for a number.
    fn judge_number(&self, number: u32) -> Result<(), BookFault>
        ensures { Judgement (first (number_grounds (phase_of (view self.now).state) (was_given (past self.now) number))) (λ _. Unit {0}) result }
    {
        if !self.is_decided() {
            return Err(BookFault::NotInThisState);
        }
        if !(1..=self.numbers_given()).contains(&number) {
            return Err(BookFault::NoSuchBid);
        }
        Ok(())
    }

    // The outcome of the bid in a row.
    fn row_outcome(&self, row: Option<Row<S::Quote>>) -> Outcome
        ensures { result ≡ told_row_outcome self.now row }
    {
        match row {
            Some(row) if row.standing => outcome_by(
                self.limit_taken(),
                self.cut_off(),
                row.quote,
                row.lots,
                row.allotted,
            ),
            _ => Outcome::Out,
        }
    }

    // The lots of a number; a withdrawn bid has none. Refused before the award, and for a number that was never given.
    pub fn allotment(&self, number: u32) -> Result<u32, BookFault>
        ensures { result ≡ told_allotment self.now number }
    {
        self.judge_number(number)?;
        Ok(self.row(number).map_or(0, |row| row.allotted))
    }

    // The outcome of a number. Refused before the award, and for a number that was never given.
    pub fn outcome(&self, number: u32) -> Result<Outcome, BookFault>
        ensures { result ≡ told_outcome self.now number }
    {
        self.judge_number(number)?;
        Ok(self.row_outcome(self.row(number)))
    }
}
