// Why a book refuses a call; each refusal has a number.
ghost use Rattle.std.specs.Prelude.{◌≡◌};
ghost use Rattle.book.specs.declared.fault.BookFault.TheVariants.{QuoteOutOfRange, ShortTable};
ghost use Rattle.book.specs.Faults.{book_fault_number};

use award::fault::AwardFault;
use terms::fault::QuoteFault;

#[derive(Clone, Copy, PartialEq, Eq, Debug)]
pub enum BookFault {
    // The call is not taken in this state.
    NotInThisState = 6,
    // The series is not the notice's.
    OtherSeries = 7,
    // The house code is not 1 to 9,999.
    HouseOutOfRange = 8,
    // The number is no quote of the kind.
    QuoteOutOfRange = 9,
    // The lots are below the minimum bid or above the offer.
    LotsOutOfRange = 10,
    // The number was never given, or its bid does not stand any more.
    NoSuchBid = 11,
    // The bid is another house's.
    OtherHouse = 12,
    // The second is outside the span in which the call is taken, or before the last accepted one.
    SecondOutOfRange = 13,
    // Every row is used.
    NoRowLeft = 14,
    // Every arrival place is given.
    NoPlaceLeft = 15,
    // A work table is shorter than the bids entered.
    ShortTable = 16,
}

impl BookFault {
    // The number of the refusal.
    pub fn number(self) -> u8
        ensures { result ≡ book_fault_number self }
    {
        self as u8
    }
}

impl From<QuoteFault> for BookFault {
    ghost from_gives = { λ _ r. r ≡ QuoteOutOfRange };

    fn from(_fault: QuoteFault) -> BookFault {
        BookFault::QuoteOutOfRange
    }
}

impl From<AwardFault> for BookFault {
    ghost from_gives = { λ _ r. r ≡ ShortTable };

    fn from(_fault: AwardFault) -> BookFault {
        BookFault::ShortTable
    }
}
