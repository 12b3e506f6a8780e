// Kinds of quote. A kind is the type of its quotes. (A kind is a type of its own with its own few lines: one type for all, over a scale, would
// need a marker type for each, a `Clone` by hand and a second trait with laws.)
ghost use Rattle.std.specs.Prelude.{◌≡◌, ℕ, Bool, List, ℤ, Option as Maybe};
ghost use Rattle.terms.specs.Quotes.{Lawful, quoted};

use crate::fault::QuoteFault;

pub trait Quote: Copy {
    // the number of a quote
    ghost number: { Self → ℤ };

    // the lowest and the highest number
    ghost low: { ℤ };

    ghost high: { ℤ };

    // whether one quote is no worse than another, seen from the issuer's side
    ghost no_worse: { Self → Self → Bool };

    // the quote that a number is read as
    ghost read: { ℤ → Maybe Self };

    // the kind's code in a notice
    ghost CODE: { ℕ };

    // the word for the kind in an act, as bytes
    ghost word: { List ℕ };

    const CODE: u8;

    // The word for the kind in an act.
    fn word() -> &'static [u8]
        ensures { result.now ≡ word };

    // The quote with the lowest number.
    fn lowest() -> Self
        ensures { number result ≡ low };

    // The quote of a number, which is refused exactly outside the range.
    fn read(value: i32) -> Result<Self, QuoteFault>
        ensures { result ≡ quoted (read value) };

    fn number(self) -> i32
        ensures { result ≡ number self };

    // (Not `PartialOrd`: it is the issuer's order, which is turned round for a rate, and has the laws below.)
    fn no_worse(self, other: Self) -> bool
        ensures { result ≡ no_worse self other };

    // What each kind shows. It is a law, which each impl proves, since it stands below the last function.
    ghost lawful: { Lawful number low high no_worse read };
}
