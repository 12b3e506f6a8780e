// The writer: a message's bytes at the front of a lent space. (The space is lent and the count told, since the project
// takes no memory of its own.)
ghost use Rattle.std.specs.Prelude.{◌+◌, ◌^◌, ◌<◌, ◌∷◌, ◌++◌, length};
ghost use Rattle.wire.specs.Kinds.{number_of};
ghost use Rattle.wire.specs.Messages.{encode};
ghost use Rattle.wire.specs.Numbers.{two};
ghost use Rattle.wire.specs.RoundTrips.{ComesBack};
ghost use Rattle.wire.specs.Writes.{Writes};

use crate::fault::WriteFault;
use crate::kind::Kind;
use crate::message::{HEAD, Message, VERSION};

// Lays the head and the fields of a message of the kind at the front of the space and tells the count of their bytes; a
// space that is too short is left as it was.
fn put(kind: Kind, fields: &[u8], space: &mut [u8]) -> Result<usize, WriteFault>
    requires { 2 + length fields.now < 2 ^ 16 }
    ensures { Writes (two (2 + length fields.now) ++ (1 ∷ number_of kind ∷ fields.now)) space.old space.new result }
{
    let count = HEAD + fields.len();
    if space.len() < count {
        return Err(WriteFault::SpaceTooShort);
    }
    let [high, low] = (2 + fields.len() as u16).to_be_bytes();
    space[..HEAD].copy_from_slice(&[high, low, VERSION, kind as u8]);
    space[HEAD..count].copy_from_slice(fields);
    Ok(count)
}

// Writes a message at the front of the space and tells the count of its bytes; a space that is too short is left as it
// was. What is written comes back when it is read.
#[tactic(auto, using(crate::proofs::ComesBack::comes_back))]
pub fn write(message: &Message, space: &mut [u8]) -> Result<usize, WriteFault>
    ensures written { Writes (encode message.now) space.old space.new result }
    ensures back { ComesBack message.now }
{
    match *message {
        Message::Notice {
            quote_code: quote,
            sharing_code: rule,
            s0,
            s1,
            s2,
            s3,
            s4,
            s5,
            s6,
            s7,
            offer,
            minimum,
            placement,
            least,
            opening,
            closing,
        } => {
            let [o0, o1, o2, o3] = offer.to_be_bytes();
            let [m0, m1, m2, m3] = minimum.to_be_bytes();
            let [p0, p1, p2, p3] = placement.to_be_bytes();
            let [b0, b1, b2, b3] = opening.to_be_bytes();
            let [e0, e1, e2, e3] = closing.to_be_bytes();
            let fields = [
                quote, rule, s0, s1, s2, s3, s4, s5, s6, s7, o0, o1, o2, o3, m0, m1, m2, m3, p0,
                p1, p2, p3, least, b0, b1, b2, b3, e0, e1, e2, e3,
            ];
            put(Kind::Notice, &fields, space)
        }
        Message::Entry {
            s0,
            s1,
            s2,
            s3,
            s4,
            s5,
            s6,
            s7,
            house,
            second,
            quote,
            lots,
        } => {
            let [h0, h1, h2, h3] = house.to_be_bytes();
            let [t0, t1, t2, t3] = second.to_be_bytes();
            let [q0, q1, q2, q3] = quote.to_be_bytes();
            let [l0, l1, l2, l3] = lots.to_be_bytes();
            let fields = [
                s0, s1, s2, s3, s4, s5, s6, s7, h0, h1, h2, h3, t0, t1, t2, t3, q0, q1, q2, q3, l0,
                l1, l2, l3,
            ];
            put(Kind::Entry, &fields, space)
        }
        Message::Change {
            number,
            house,
            second,
            quote,
            lots,
        } => {
            let [n0, n1, n2, n3] = number.to_be_bytes();
            let [h0, h1, h2, h3] = house.to_be_bytes();
            let [t0, t1, t2, t3] = second.to_be_bytes();
            let [q0, q1, q2, q3] = quote.to_be_bytes();
            let [l0, l1, l2, l3] = lots.to_be_bytes();
            let fields = [
                n0, n1, n2, n3, h0, h1, h2, h3, t0, t1, t2, t3, q0, q1, q2, q3, l0, l1, l2, l3,
            ];
            put(Kind::Change, &fields, space)
        }
        Message::Withdrawal {
            number,
            house,
            second,
        } => {
            let [n0, n1, n2, n3] = number.to_be_bytes();
            let [h0, h1, h2, h3] = house.to_be_bytes();
            let [t0, t1, t2, t3] = second.to_be_bytes();
            let fields = [n0, n1, n2, n3, h0, h1, h2, h3, t0, t1, t2, t3];
            put(Kind::Withdrawal, &fields, space)
        }
        Message::Close { second } => put(Kind::Close, &second.to_be_bytes(), space),
        Message::Limit { quote } => put(Kind::Limit, &quote.to_be_bytes(), space),
    }
}
