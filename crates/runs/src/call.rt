// A call on a book, and its answer.
use book::event::Event;
use book::fault::BookFault;
use book::outcome::Outcome;

#[derive(Clone, Copy)]
pub enum Call {
    // An event is put to the book, with two work tables of so many places.
    Put {
        event: Event,
        demands: usize,
        shares: usize,
    },
    // How many bids stand?
    Count,
    // How many lots are placed?
    Placed,
    // What is the cut-off?
    CutOff,
    // How many lots did the bid of a number receive?
    Allotment {
        number: u32,
    },
    // What became of the bid of a number?
    Outcome {
        number: u32,
    },
}

// The answer to a call that is not refused.
#[derive(Clone, Copy, PartialEq, Eq, Debug)]
pub enum Answer<Q> {
    // An event was accepted, with this answer: an entry's number, else 0. (A rule of the project, in place of an `Option`.)
    Accepted(u32),
    // The answers to the questions.
    Count(usize),
    Placed(u64),
    CutOff(Option<Q>),
    Allotment(u32),
    Outcome(Outcome),
}

// A call, with the place for its answer beside it: the answer, or why the call was refused; nothing before it is made.
#[derive(Clone, Copy)]
pub struct Exchange<Q> {
    pub call: Call,
    pub answer: Option<Result<Answer<Q>, BookFault>>,
}
