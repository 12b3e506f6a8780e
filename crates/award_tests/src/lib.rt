// The award on books worked by hand.

#![tactic(auto)]

#[cfg(test)]
mod books;
