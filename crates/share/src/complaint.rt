// What is wrong with the words that the program was given.
use std::alloc::{AllocError, AllocFailed};
use std::fmt;
use terms::fault::ShareFault;

// A word that was given, and its place, counted from 1, the rule's.
#[derive(Drop)]
pub struct Word {
    pub place: usize,
    pub text: String,
}

#[derive(Drop)]
pub enum Complaint {
    NoRule,
    NoBalance,
    // The word is no rule.
    NotARule(Word),
    // The word is no number.
    NotANumber(Word),
    // The rule refuses, because of the word.
    Refused(ShareFault, Word),
    NoMemory,
}

impl From<AllocError> for Complaint {
    fn from(_e: AllocError) -> Complaint {
        Complaint::NoMemory
    }
}

impl<T: Drop> From<AllocFailed<T>> for Complaint {
    fn from(_e: AllocFailed<T>) -> Complaint {
        Complaint::NoMemory
    }
}

impl fmt::Display for Word {
    fn fmt<W: fmt::Write>(&self, f: &mut fmt::Formatter<W>) -> fmt::Result {
        let place = self.place;
        let text = self.text.as_str();
        write!(f, "word {place}, '{text}'")
    }
}

impl fmt::Display for Complaint {
    fn fmt<W: fmt::Write>(&self, f: &mut fmt::Formatter<W>) -> fmt::Result {
        match self {
            Complaint::NoRule => f.write_str(
                "no rule is given; the rules are pro-rata and arrival",
            ),
            Complaint::NoBalance => f.write_str("no balance is given"),
            Complaint::NotARule(word) => write!(
                f,
                "{word}, is no rule; the rules are pro-rata and arrival"
            ),
            Complaint::NotANumber(word) => write!(f, "{word}, is no number of lots"),
            Complaint::Refused(fault, word) => {
                let number = fault.number();
                let why = reason(*fault, word.place);
                write!(f, "refused with {number} at {word}: {why}")
            }
            Complaint::NoMemory => f.write_str("out of memory"),
        }
    }
}

// The ground of a refusal, at the word of a place: the second word is the balance.
fn reason(fault: ShareFault, place: usize) -> &'static str {
    match fault {
        ShareFault::Lots if place == 2 =>
            "the balance is above the demands together, or above 1,000,000,000",
        ShareFault::Lots => "a demand is 1 to 1,000,000,000 lots",
        ShareFault::ShortTable => "there are fewer places for shares than demands",
        ShareFault::ManyDemands => "there are more than 4,096 demands",
    }
}
