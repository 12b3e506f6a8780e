// The rate, a kind of quote.
ghost use Rattle.std.specs.Prelude.{◌≡◌, true, pos};
ghost use Rattle.terms.specs.Quotes.{in_range};

// A rate in hundredths of a per cent, 0 to 9,999.
#[derive(Clone, Copy, PartialEq, Eq, Debug)]
pub struct Rate {
    pub(crate) hundredths: i32,
    ghost within: { in_range (pos 0) (pos 9_999) hundredths ≡ true },
}
