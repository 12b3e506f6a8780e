// The notice call of a session.
ghost use Rattle.std.specs.Prelude.{◌≡◌};
ghost use Rattle.terms.specs.Grounds.{refused};
ghost use Rattle.cabinet.specs.Readings.{seen_by, Passes};
ghost use Rattle.wire.specs.declared.call.Call.TheVariants.{Opening};
ghost use Rattle.cabinet.specs.Sessions.{fields_of, against, opened_by, noted_fields, noted_by};

use crate::fault::SessionFault;
use crate::located::locate;
use crate::reading::read;
use terms::check::check_notice;
use terms::checked::CheckedNotice;
use terms::fault::NoticeFault;
use terms::notice::{Notice, NoticeFields};
use terms::quote::Quote;
use terms::sharing::SharingRule;
use wire::call::Call;
use wire::message::Message;
use wire::reader::Reader;

// The fields of a notice message. (A function: neither the message nor the fields are of this crate, so that `TryFrom` cannot be written here.)
pub(crate) fn fields_of(message: &Message) -> Option<NoticeFields>
    ensures { result ≡ fields_of message.now }
{
    match *message {
        Message::Notice {
            quote_code,
            sharing_code,
            s0,
            s1,
            s2,
            s3,
            s4,
            s5,
            s6,
            s7,
            offer,
            minimum,
            placement: least_placement,
            least: least_number,
            opening,
            closing,
        } => {
            let notice = Notice {
                series: [s0, s1, s2, s3, s4, s5, s6, s7],
                offer,
                minimum,
                least_placement,
                least_number,
                opening,
                closing,
            };
            Some(NoticeFields {
                quote_code,
                sharing_code,
                notice,
            })
        }
        _ => None,
    }
}

// Checks the notice of a message for a kind of quote and a sharing rule. (Any other message has nothing to check, and is not given here.)
fn check_message<Q: Quote, R: SharingRule>(
    message: &Message,
    place: &mut CheckedNotice,
) -> Result<(), NoticeFault>
    ensures refused { refused result ≡ against Q.Quote.CODE R.SharingRule.CODE (fields_of message.now) }
    ensures place { place.new.notice ≡ noted_fields Q.Quote.CODE R.SharingRule.CODE (fields_of message.now) place.old.notice }
{
    match fields_of(message) {
        Some(fields) => check_notice::<Q, R>(&fields, place),
        None => Ok(()),
    }
}

// Reads the notice at the reader's place, checks it for a kind of quote and a sharing rule, and fills the caller's place with it. At the exact end
// there is none. A notice that is read and then refused is passed, and the caller's place stays. (That the caller lends the place is a rule of the
// project.)
pub fn open_notice<Q: Quote, R: SharingRule>(
    reader: &mut Reader<'_>,
    place: &mut CheckedNotice,
) -> Result<Option<()>, SessionFault>
    ensures result { result ≡ opened_by Q.Quote.CODE R.SharingRule.CODE reader.old.passed reader.old.place (seen_by Opening reader.old) }
    ensures place { place.new.notice ≡ noted_by Q.Quote.CODE R.SharingRule.CODE (seen_by Opening reader.old) place.old.notice }
    ensures reader { Passes Opening reader.old reader.new }
{
    let ordinal = reader.passed();
    let at = reader.place();
    let Some(message) = read(reader, Call::Opening)? else {
        return Ok(None);
    };
    locate(ordinal, at, check_message::<Q, R>(&message, place))?;
    Ok(Some(()))
}
