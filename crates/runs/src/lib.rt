// Runs of calls on a book, and the law that holds over every one.
#![tactic(auto)]

pub mod call;
pub mod law;
pub mod run;
