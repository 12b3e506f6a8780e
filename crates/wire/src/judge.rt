// Whether a call accepts the message at the front of some bytes.
ghost use Rattle.std.specs.Prelude.{◌≡◌, IfOk, IfErr, slice_index};
ghost use Rattle.wire.specs.Grounds.{grounds, verdict};
ghost use Rattle.wire.specs.Kinds.{number_of};

use crate::call::Call;
use crate::fault::ReadFault;
use crate::kind::Kind;
use crate::message::VERSION;

// The kind of the message at the front of `rest`, or the first ground there is against it.
pub(crate) fn judge(rest: &[u8], call: Call) -> Result<Kind, ReadFault>
    ensures accepted { IfOk result (λ k. verdict (grounds call rest.now) ≡ Ok tt) }
    ensures kind { IfOk result (λ k. number_of k ≡ slice_index rest.now 3) }
    ensures refused { IfErr result (λ f. verdict (grounds call rest.now) ≡ Err f) }
{
    let [high, low, body @ ..] = rest else {
        return Err(ReadFault::Truncated);
    };
    let length = u16::from_be_bytes([*high, *low]) as usize;
    if body.len() < length {
        return Err(ReadFault::Truncated);
    }
    if length < 2 {
        return Err(ReadFault::LengthBelowTwo);
    }
    if rest[2] != VERSION {
        return Err(ReadFault::WrongVersion);
    }
    let kind = Kind::try_from(rest[3])?;
    if kind.call() != call {
        return Err(ReadFault::WrongKind);
    }
    if length != kind.length() {
        return Err(ReadFault::WrongLength);
    }
    Ok(kind)
}
