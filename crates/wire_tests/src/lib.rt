// Tests of the cabinet's messages, on bytes of every sort.
#![tactic(auto)]

#[cfg(test)]
mod reading;
#[cfg(test)]
mod writing;
