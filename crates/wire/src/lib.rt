// The cabinet's messages: a reader over borrowed bytes, a writer into a lent space, and the way there and back.
#![tactic(auto)]

pub mod back;
pub mod call;
mod decode;
pub mod fault;
mod front;
mod judge;
mod kind;
pub mod message;
mod number;
pub mod reader;
pub mod trip;
pub mod writer;
