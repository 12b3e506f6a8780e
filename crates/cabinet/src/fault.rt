// The session's fault: a lower layer's fault, whole, and where in the messages it was met.
ghost use Rattle.std.specs.Prelude.{◌≡◌};
ghost use Rattle.cabinet.specs.Faults.{session_number};
ghost use Rattle.cabinet.specs.declared.fault.LowerFault.TheVariants.{Read, Notice, Book};

use book::fault::BookFault;
use terms::fault::NoticeFault;
use wire::fault::ReadFault;

// The fault of the layer that refused.
#[derive(Clone, Copy, PartialEq, Eq, Debug)]
pub enum LowerFault {
    // The reader does not accept the bytes.
    Read(ReadFault),
    // The notice is not taken.
    Notice(NoticeFault),
    // The book does not take the event.
    Book(BookFault),
}

impl From<ReadFault> for LowerFault {
    ghost from_gives = { λ f r. r ≡ Read f };

    fn from(fault: ReadFault) -> LowerFault {
        LowerFault::Read(fault)
    }
}

impl From<NoticeFault> for LowerFault {
    ghost from_gives = { λ f r. r ≡ Notice f };

    fn from(fault: NoticeFault) -> LowerFault {
        LowerFault::Notice(fault)
    }
}

impl From<BookFault> for LowerFault {
    ghost from_gives = { λ f r. r ≡ Book f };

    fn from(fault: BookFault) -> LowerFault {
        LowerFault::Book(fault)
    }
}

#[derive(Clone, Copy, PartialEq, Eq, Debug)]
pub struct SessionFault {
    // how many messages were passed before the one that the fault is about
    pub ordinal: usize,
    // the byte that it is about, counted from 0 at the reader's start
    pub place: usize,
    pub fault: LowerFault,
}

impl SessionFault {
    // The number of the refusal, which is that of the layer that refused.
    pub fn number(self) -> u8
        ensures { result ≡ session_number self }
    {
        match self.fault {
            LowerFault::Read(fault) => fault.number(),
            LowerFault::Notice(fault) => fault.number(),
            LowerFault::Book(fault) => fault.number(),
        }
    }
}
