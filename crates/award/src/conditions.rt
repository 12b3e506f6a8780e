// What an award goes by, beside the limit.
ghost use Rattle.std.specs.Prelude.{◌≤◌};
ghost use Rattle.terms.specs.Sharing.{most_lots};

// The lots on offer, the least number of standing bids, and the least placement in lots.
#[derive(Clone, Copy)]
pub struct Conditions {
    pub offer: u32,
    pub least_number: u32,
    pub least_placement: u32,
    ghost small: { offer ≤ most_lots },
    ghost some: { 1 ≤ least_placement },
}
