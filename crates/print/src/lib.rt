// The lines that the cabinet prints, as bytes at the front of a lent space.
#![tactic(auto)]

pub mod act;
mod cursor;
pub mod head;
mod lines;
mod number;
mod parts;
mod piece;
mod printed;
pub mod refusal;
pub mod row;
mod sink;
pub mod writer;
