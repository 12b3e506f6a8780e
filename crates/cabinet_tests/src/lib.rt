// Whole prints, worked out by hand from the rules.
#![tactic(auto)]

#[cfg(test)]
mod acts;
#[cfg(test)]
mod inputs;
#[cfg(test)]
mod notices;
#[cfg(test)]
mod readings;
