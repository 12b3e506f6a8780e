// The fields of a message out of its bytes.
ghost use Rattle.std.specs.Prelude.{◌≡◌, ◌+◌, ◌≤◌, length};
ghost use Rattle.wire.specs.Grounds.{length_of};
ghost use Rattle.wire.specs.Kinds.{number_of};
ghost use Rattle.wire.specs.Reading.{notice_at_front, entry_at_front, change_at_front, withdrawal_at_front, decoded};

use crate::kind::Kind;
use crate::message::Message;
use crate::number::four_bytes;

// The notice whose bytes stand at the front of `b`.
fn notice(b: &[u8]) -> Message
    requires { 35 ≤ length b.now }
    ensures { result ≡ notice_at_front b.now }
{
    Message::Notice {
        quote_code: b[4],
        sharing_code: b[5],
        s0: b[6],
        s1: b[7],
        s2: b[8],
        s3: b[9],
        s4: b[10],
        s5: b[11],
        s6: b[12],
        s7: b[13],
        offer: u32::from_be_bytes(four_bytes(b, 14)),
        minimum: u32::from_be_bytes(four_bytes(b, 18)),
        placement: u32::from_be_bytes(four_bytes(b, 22)),
        least: b[26],
        opening: u32::from_be_bytes(four_bytes(b, 27)),
        closing: u32::from_be_bytes(four_bytes(b, 31)),
    }
}

// The entry whose bytes stand at the front of `b`.
fn entry(b: &[u8]) -> Message
    requires { 28 ≤ length b.now }
    ensures { result ≡ entry_at_front b.now }
{
    Message::Entry {
        s0: b[4],
        s1: b[5],
        s2: b[6],
        s3: b[7],
        s4: b[8],
        s5: b[9],
        s6: b[10],
        s7: b[11],
        house: u32::from_be_bytes(four_bytes(b, 12)),
        second: u32::from_be_bytes(four_bytes(b, 16)),
        quote: i32::from_be_bytes(four_bytes(b, 20)),
        lots: u32::from_be_bytes(four_bytes(b, 24)),
    }
}

// The change whose bytes stand at the front of `b`.
fn change(b: &[u8]) -> Message
    requires { 24 ≤ length b.now }
    ensures { result ≡ change_at_front b.now }
{
    Message::Change {
        number: u32::from_be_bytes(four_bytes(b, 4)),
        house: u32::from_be_bytes(four_bytes(b, 8)),
        second: u32::from_be_bytes(four_bytes(b, 12)),
        quote: i32::from_be_bytes(four_bytes(b, 16)),
        lots: u32::from_be_bytes(four_bytes(b, 20)),
    }
}

// The withdrawal whose bytes stand at the front of `b`.
fn withdrawal(b: &[u8]) -> Message
    requires { 16 ≤ length b.now }
    ensures { result ≡ withdrawal_at_front b.now }
{
    Message::Withdrawal {
        number: u32::from_be_bytes(four_bytes(b, 4)),
        house: u32::from_be_bytes(four_bytes(b, 8)),
        second: u32::from_be_bytes(four_bytes(b, 12)),
    }
}

// The message of a kind whose bytes stand at the front of `b`.
#[tactic(auto, unfolding(crate::specs::Reading::decoded))]
pub(crate) fn decode(b: &[u8], kind: Kind) -> Message
    requires { 2 + length_of (number_of kind) ≤ length b.now }
    ensures { result ≡ decoded (number_of kind) b.now }
{
    match kind {
        Kind::Notice => notice(b),
        Kind::Entry => entry(b),
        Kind::Change => change(b),
        Kind::Withdrawal => withdrawal(b),
        Kind::Close => Message::Close {
            second: u32::from_be_bytes(four_bytes(b, 4)),
        },
        Kind::Limit => Message::Limit {
            quote: i32::from_be_bytes(four_bytes(b, 4)),
        },
    }
}
