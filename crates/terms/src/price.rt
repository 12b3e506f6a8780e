// The price, a kind of quote.
ghost use Rattle.std.specs.Prelude.{◌≡◌, true, pos};
ghost use Rattle.terms.specs.Quotes.{in_range};

// A price in ten-thousandths per 100 of face value, 1 to 1,500,000.
#[derive(Clone, Copy, PartialEq, Eq, Debug)]
pub struct Price {
    pub(crate) units: i32,
    ghost within: { in_range (pos 1) (pos 1_500_000) units ≡ true },
}
