// The cabinet: a session of messages over a book, and what is printed of it.
#![tactic(auto)]

pub mod act;
mod attend;
pub mod fault;
mod listed;
pub mod located;
pub mod notice;
mod reading;
mod sale;
pub mod session;
pub mod whole;
