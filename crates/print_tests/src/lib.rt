// Tests of the cabinet's lines: worked lines, the longest ones, and spaces that are just long enough.
#![tactic(auto)]

#[cfg(test)]
mod acts;
#[cfg(test)]
mod prints;
#[cfg(test)]
mod refusals;
#[cfg(test)]
mod written;
