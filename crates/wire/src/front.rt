// The message at the front of some bytes.
ghost use Rattle.std.specs.Prelude.{◌≡◌, ◌≤◌, length};
ghost use Rattle.wire.specs.Reads.{Replies, bytes_passed};

use crate::call::Call;
use crate::decode::decode;
use crate::fault::ReadFault;
use crate::judge::judge;
use crate::message::Message;

// The message at the front of `rest`; at the end none; or the first ground against it.
pub(crate) fn front(rest: &[u8], call: Call) -> Result<Option<Message>, ReadFault>
    ensures reply { Replies call rest.now result }
    ensures fits { bytes_passed result ≤ length rest.now }
{
    if rest.is_empty() {
        return Ok(None);
    }
    let kind = judge(rest, call)?;
    Ok(Some(decode(rest, kind)))
}
