// The terms of an auction on examples, most of them at the bounds.

#![tactic(auto)]

#[cfg(test)]
mod notices;
#[cfg(test)]
mod quotes;
#[cfg(test)]
mod sharing;
