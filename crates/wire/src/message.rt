// A message, by kind.
ghost use Rattle.std.specs.Prelude.{◌≡◌, length};
ghost use Rattle.wire.specs.Kinds.{number_of};
ghost use Rattle.wire.specs.Messages.{kind_of, encode};

use crate::kind::Kind;

// How many bytes stand before the fields: the two of the length, the version and the kind.
pub(crate) const HEAD: usize = 4;

// The version, which stands in the third byte.
pub(crate) const VERSION: u8 = 1;

// A series code stands in its case as eight single bytes, which is a rule of the project. (The two codes are bytes as they were sent, which may be
// no kind's and no rule's, so that no enum stands for them.)
#[derive(Clone, Copy)]
pub enum Message {
    // Kind 0: what is offered, under which rules and when.
    Notice {
        quote_code: u8,
        sharing_code: u8,
        s0: u8,
        s1: u8,
        s2: u8,
        s3: u8,
        s4: u8,
        s5: u8,
        s6: u8,
        s7: u8,
        offer: u32,
        minimum: u32,
        placement: u32,
        // The least number of bids.
        least: u8,
        opening: u32,
        closing: u32,
    },
    // Kind 1: a new bid.
    Entry {
        s0: u8,
        s1: u8,
        s2: u8,
        s3: u8,
        s4: u8,
        s5: u8,
        s6: u8,
        s7: u8,
        house: u32,
        second: u32,
        quote: i32,
        lots: u32,
    },
    // Kind 2: another quote and other lots for the bid of that number.
    Change {
        number: u32,
        house: u32,
        second: u32,
        quote: i32,
        lots: u32,
    },
    // Kind 3: the bid of that number is taken back.
    Withdrawal {
        number: u32,
        house: u32,
        second: u32,
    },
    // Kind 4: no more bids.
    Close {
        second: u32,
    },
    // Kind 5: the worst quote that the issuer takes.
    Limit {
        quote: i32,
    },
}

impl Message {
    // The kind of the message, which tells its width and the call that takes it.
    pub(crate) fn kind(&self) -> Kind
        ensures { number_of result ≡ kind_of self.now }
    {
        match self {
            Message::Notice { .. } => Kind::Notice,
            Message::Entry { .. } => Kind::Entry,
            Message::Change { .. } => Kind::Change,
            Message::Withdrawal { .. } => Kind::Withdrawal,
            Message::Close { .. } => Kind::Close,
            Message::Limit { .. } => Kind::Limit,
        }
    }

    // How many bytes the message has: the two of the length, and those that the length counts.
    pub(crate) fn width(&self) -> usize
        ensures { result ≡ length (encode self.now) }
    {
        2 + self.kind().length()
    }
}
