// The award of an offer among the bids for it.
#![tactic(auto)]

pub mod allot;
pub mod award;
pub mod bids;
pub mod books;
pub mod conditions;
pub mod cut_off;
pub mod demand;
pub mod fault;
pub mod hand_out;
pub mod law;
mod quotes;
pub mod reckon;
pub mod reckoning;
pub mod row;
