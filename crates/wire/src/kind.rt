// The kinds of a message, each by the number that stands for it in the message's fourth byte.
ghost use Rattle.std.specs.Prelude.{◌≡◌, true};
ghost use Rattle.wire.specs.Grounds.{taken, length_of};
ghost use Rattle.wire.specs.Kinds.{number_of, Names};

use crate::call::Call;
use crate::fault::ReadFault;

#[derive(Clone, Copy, PartialEq, Eq, Debug)]
pub(crate) enum Kind {
    Notice = 0,
    Entry = 1,
    Change = 2,
    Withdrawal = 3,
    Close = 4,
    Limit = 5,
}

impl TryFrom<u8> for Kind {
    type Error = ReadFault;

    ghost try_from_gives = { Names };

    fn try_from(number: u8) -> Result<Kind, ReadFault> {
        match number {
            0 => Ok(Kind::Notice),
            1 => Ok(Kind::Entry),
            2 => Ok(Kind::Change),
            3 => Ok(Kind::Withdrawal),
            4 => Ok(Kind::Close),
            5 => Ok(Kind::Limit),
            _ => Err(ReadFault::WrongKind),
        }
    }
}

impl Kind {
    // The call that takes the kind.
    pub(crate) fn call(self) -> Call
        ensures { taken result (number_of self) ≡ true }
    {
        match self {
            Kind::Notice => Call::Opening,
            Kind::Entry | Kind::Change | Kind::Withdrawal | Kind::Close | Kind::Limit => {
                Call::Session
            }
        }
    }

    // The length that a message of the kind tells: that of all that follows the length itself.
    pub(crate) fn length(self) -> usize
        ensures { result ≡ length_of (number_of self) }
    {
        match self {
            Kind::Notice => 33,
            Kind::Entry => 26,
            Kind::Change => 22,
            Kind::Withdrawal => 14,
            Kind::Close | Kind::Limit => 6,
        }
    }
}
