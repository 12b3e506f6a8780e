// The checked notice: one that keeps the rules.
ghost use Rattle.std.specs.Prelude.{◌≡◌, ◌<◌, ◌≤◌, true};
ghost use Rattle.terms.specs.Notices.{series_fits};

use crate::notice::Notice;

// A notice that keeps the rules, by its type. It is made by the check, or is the one that a place for a checked notice starts with.
#[derive(Clone, Copy)]
pub struct CheckedNotice {
    pub(crate) notice: Notice,
    ghost series: { series_fits notice.series ≡ true },
    ghost offer: { (1 ≤ notice.offer) × (notice.offer ≤ 1_000_000_000) },
    ghost minimum: { (1 ≤ notice.minimum) × (notice.minimum ≤ notice.offer) },
    ghost placement: { (1 ≤ notice.least_placement) × (notice.least_placement ≤ notice.offer) },
    ghost number: { (1 ≤ notice.least_number) × (notice.least_number ≤ 2) },
    ghost seconds: { (notice.opening < notice.closing) × (notice.closing ≤ 86_399) },
}
