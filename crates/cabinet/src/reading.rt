// The reader's calls, with a fault that says where it was met.
ghost use Rattle.std.specs.Prelude.{◌≡◌};
ghost use Rattle.cabinet.specs.Readings.{read_located, seen_by, Passes};

use crate::located::Located;
use wire::call::Call;
use wire::fault::ReadFault;
use wire::message::Message;
use wire::reader::Reader;

// The message at the reader's place, if the call takes it.
pub(crate) fn read(
    reader: &mut Reader<'_>,
    call: Call,
) -> Result<Option<Message>, Located<ReadFault>>
    ensures result { result ≡ read_located reader.old.passed reader.old.place (seen_by call reader.old) }
    ensures reader { Passes call reader.old reader.new }
{
    let ordinal = reader.passed();
    let place = reader.place();
    reader.next(call).map_err(|fault| Located {
        ordinal,
        place: place + fault.offset(),
        fault,
    })
}
