// Rates as a kind of quote: lower is better.
ghost use Rattle.std.specs.Prelude.{pos, codes, refl};
ghost use Rattle.terms.specs.Rates.{rate_number, rate_no_worse, read_rate};
ghost use Rattle.std.specs.Int.Signed.{le_z_yes};
ghost use Rattle.terms.specs.Quoting.{lower_lawful};

use crate::fault::QuoteFault;
use crate::quote::Quote;
use crate::rate::Rate;

impl Quote for Rate {
    ghost number = { rate_number };

    ghost low = { pos 0 };

    ghost high = { pos 9_999 };

    ghost no_worse = { rate_no_worse };

    ghost read = { read_rate };

    ghost CODE = { 1 };

    ghost word = { codes "RATE" };

    ghost lawful = { lower_lawful (pos 0) (pos 9_999) (λ n e. record { hundredths = n; within = e }) rate_number (λ n e. refl) (le_z_yes tt, le_z_yes tt) (λ a. a.within) (λ a. refl) };

    const CODE: u8 = 1;

    fn word() -> &'static [u8] {
        b"RATE"
    }

    fn lowest() -> Rate {
        Rate { hundredths: 0 }
    }

    fn read(value: i32) -> Result<Rate, QuoteFault> {
        if !(0..=9_999).contains(&value) {
            return Err(QuoteFault::OutOfRange);
        }
        Ok(Rate { hundredths: value })
    }

    fn number(self) -> i32 {
        self.hundredths
    }

    fn no_worse(self, other: Rate) -> bool {
        self.hundredths <= other.hundredths
    }
}
