// The calls that read a message and pass it. At the end there is none; a refusal leaves the reader as it was.
// (`notice` and `event` are `next` with its call in the name: each is a promise of its own, in one line.)
ghost use Rattle.std.specs.Prelude.{◌≡◌, ◌+◌, length};
ghost use Rattle.wire.specs.Reads.{Reads, ahead};
ghost use Rattle.wire.specs.declared.call.Call.TheVariants.{Opening, Session};

use crate::call::Call;
use crate::fault::ReadFault;
use crate::front::front;
use crate::message::Message;
use crate::reader::Reader;

impl<'a> Reader<'a> {
    // The notice at the place.
    pub fn notice(&mut self) -> Result<Option<Message>, ReadFault>
        ensures { Reads Opening self.old self.new result }
    {
        self.next(Call::Opening)
    }

    // The event of a session at the place.
    pub fn event(&mut self) -> Result<Option<Message>, ReadFault>
        ensures { Reads Session self.old self.new result }
    {
        self.next(Call::Session)
    }

    // The message at the place, if the call takes it.
    pub fn next(&mut self, call: Call) -> Result<Option<Message>, ReadFault>
        ensures { Reads call self.old self.new result }
    {
        let Some(message) = front(self.rest(), call)? else {
            return Ok(None);
        };
        self.place += message.width();
        self.passed += 1;
        Ok(Some(message))
    }

    // The bytes behind the place.
    fn rest(&self) -> &'a [u8]
        ensures value { result.now ≡ ahead self.now }
        ensures len { self.now.place + length result.now ≡ length self.now.bytes.now }
    {
        let bytes = self.bytes;
        &bytes[self.place..]
    }
}
