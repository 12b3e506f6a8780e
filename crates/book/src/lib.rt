// The book of one series: the calls on it, and what it tells.
#![tactic(auto)]

pub mod book;
pub mod change;
pub mod close;
pub mod entry;
pub mod event;
pub mod fault;
pub mod figures;
pub mod find;
pub mod limit;
pub mod opening;
pub mod outcome;
pub mod questions;
pub mod sale;
pub mod state;
pub mod take;
pub mod withdrawal;
