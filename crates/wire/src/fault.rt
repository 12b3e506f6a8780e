// Why the reader or the writer refuses: a case for each ground, with its number.
ghost use Rattle.std.specs.Prelude.{◌≡◌};
ghost use Rattle.wire.specs.Faults.{read_number, read_offset, write_number};

// Why the reader refuses.
#[derive(Clone, Copy, PartialEq, Eq, Debug)]
pub enum ReadFault {
    // One byte is left, or fewer bytes than the length says.
    Truncated = 1,
    // The length is below 2, so that it leaves out the version or the kind.
    LengthBelowTwo = 2,
    // The version is not 1.
    WrongVersion = 3,
    // The call does not take the kind.
    WrongKind = 4,
    // The length is not that of the kind.
    WrongLength = 5,
}

impl ReadFault {
    // The refusal's number.
    pub fn number(self) -> u8
        ensures { result ≡ read_number self }
    {
        self as u8
    }

    // How far behind the message's first byte the byte is that the refusal is about.
    pub fn offset(self) -> usize
        ensures { result ≡ read_offset self }
    {
        match self {
            ReadFault::WrongVersion => 2,
            ReadFault::WrongKind => 3,
            _ => 0,
        }
    }
}

// Why the writer refuses.
#[derive(Clone, Copy, PartialEq, Eq, Debug)]
pub enum WriteFault {
    // The space is shorter than the message.
    SpaceTooShort = 19,
}

impl WriteFault {
    // The refusal's number.
    pub fn number(self) -> u8
        ensures { result ≡ write_number self }
    {
        self as u8
    }
}
