// There and back: a message is written, and read again from where it was written.
ghost use Rattle.std.specs.Prelude.{◌≡◌};
ghost use Rattle.wire.specs.Reading.{reading};
ghost use Rattle.wire.specs.Reads.{bytes_passed};
ghost use Rattle.wire.specs.RoundTrips.{call_for, Returns};

use crate::back::Back;
use crate::fault::WriteFault;
use crate::message::Message;
use crate::reader::Reader;
use crate::writer::write;

// Reads the first message of the bytes, by the call that takes the kind of `like`.
fn read_like(like: &Message, bytes: &[u8]) -> Back
    ensures read { result.read ≡ reading (call_for like.now) bytes.now }
    ensures place { result.place ≡ bytes_passed result.read }
{
    let mut reader = Reader::new(bytes);
    let read = reader.next(like.kind().call());
    Back {
        read,
        place: reader.place(),
    }
}

// Writes a message into the space and reads it back from there.
#[tactic(auto, using(crate::proofs::Returns::returned))]
pub fn there_and_back(message: &Message, space: &mut [u8]) -> Result<Back, WriteFault>
    ensures { Returns message.now space.old space.new result }
{
    write(message, space)?;
    Ok(read_like(message, space))
}
