// Books by their calls: each ground at its bounds, and the books worked by hand.
#![tactic(auto)]

#[cfg(test)]
mod acts;
#[cfg(test)]
mod calls;
#[cfg(test)]
mod events;
