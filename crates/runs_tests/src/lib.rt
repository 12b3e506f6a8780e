// Runs of calls on a book, on examples.

#![tactic(auto)]

#[cfg(test)]
mod answers;
