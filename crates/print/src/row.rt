// A row of an act.
use book::outcome::Outcome;

#[derive(Clone, Copy)]
pub struct ActRow {
    // the bid's number, and its house
    pub number: u32,
    pub house: u32,
    // the bid's last quote and lots
    pub quote: i32,
    pub lots: u32,
    // the lots allotted to it
    pub allotted: u32,
    pub outcome: Outcome,
}
