// The division that the words ask for.
use crate::complaint::{Complaint, Word};
use std::alloc::Global;
use std::str::FromStr;

#[derive(Clone, Copy)]
pub enum Rule {
    ProRata,
    InArrivalOrder,
}

// A word that names no rule.
#[derive(Clone, Copy)]
pub struct NoRule;

impl FromStr for Rule {
    type Err = NoRule;

    fn from_str(word: &str) -> Result<Rule, NoRule> {
        match word {
            "pro-rata" => Ok(Rule::ProRata),
            "arrival" => Ok(Rule::InArrivalOrder),
            _ => Err(NoRule),
        }
    }
}

#[derive(Drop)]
pub struct Division {
    pub rule: Rule,
    pub balance: u32,
    pub demands: Vec<u32>,
}

// What the word at a place says, or the complaint that it does not. (A match: `map_err` takes no `?`, and the copy of the word may find no memory.)
fn said<T: FromStr, C: FnOnce(Word) -> Complaint>(
    heap: Global,
    place: usize,
    word: &str,
    complaint: C,
) -> Result<T, Complaint>
where
    T::Err: Drop,
    requires { C.IsAlwaysCallable complaint }
{
    match word.parse::<T>() {
        Ok(value) => Ok(value),
        Err(_) => Err(complaint(Word {
            place,
            text: String::from_str(heap, word)?,
        })),
    }
}

// The rule, the balance and the demands.
pub fn read(heap: Global, words: &[String]) -> Result<Division, Complaint> {
    let first = words.first().ok_or(Complaint::NoRule)?;
    let rule = said(heap, 1, first.as_str(), Complaint::NotARule)?;
    let second = words.get(1).ok_or(Complaint::NoBalance)?;
    let balance = said(heap, 2, second.as_str(), Complaint::NotANumber)?;
    let mut demands = Vec::new(heap);
    for (i, word) in words.iter().enumerate().skip(2) {
        let place = i.saturating_add(1);
        demands.push(said(heap, place, word.as_str(), Complaint::NotANumber)?)?;
    }
    Ok(Division {
        rule,
        balance,
        demands,
    })
}
