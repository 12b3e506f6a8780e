// The session call: one message is read and put to the book.
ghost use Rattle.std.specs.Prelude.{◌≡◌, false, length};
ghost use Rattle.wire.specs.declared.call.Call.TheVariants.{Session};
ghost use Rattle.book.specs.Books.{Becomes};
ghost use Rattle.cabinet.specs.Readings.{Passes};
ghost use Rattle.cabinet.specs.Sessions.{event_of, message_writes};
ghost use Rattle.cabinet.specs.Books.{put_on, answer_on, sheet_on, writes_on};

use crate::fault::SessionFault;
use crate::located::locate;
use crate::reading::read;
use book::book::Book;
use book::event::{Change, Entry, Event, Withdrawal};
use book::fault::BookFault;
use book::sale::Sale;
use wire::call::Call;
use wire::message::Message;
use wire::reader::Reader;

// The event of a message of a session. (A function: neither the message nor the event is of this crate, so that `TryFrom` cannot be written here.)
fn event_of(message: &Message) -> Option<Event>
    ensures { result ≡ event_of message.now }
{
    match *message {
        Message::Notice { .. } => None,
        Message::Entry {
            s0,
            s1,
            s2,
            s3,
            s4,
            s5,
            s6,
            s7,
            house,
            second,
            quote,
            lots,
        } => Some(Event::Entry(Entry {
            series: [s0, s1, s2, s3, s4, s5, s6, s7],
            house,
            second,
            quote,
            lots,
        })),
        Message::Change {
            number,
            house,
            second,
            quote,
            lots,
        } => Some(Event::Change(Change {
            number,
            house,
            second,
            quote,
            lots,
        })),
        Message::Withdrawal {
            number,
            house,
            second,
        } => Some(Event::Withdrawal(Withdrawal {
            number,
            house,
            second,
        })),
        Message::Close { second } => Some(Event::Close { second }),
        Message::Limit { quote } => Some(Event::Limit { quote }),
    }
}

// Puts the event of a message to the book. (A notice has no event, and is not given here.)
fn put_message<S: Sale>(
    book: &mut Book<'_, S>,
    message: &Message,
    demands: &mut [u32],
    shares: &mut [u32],
) -> Result<u32, BookFault>
    ensures result { result ≡ (put_on book.old (length demands.old) (length shares.old) (event_of message.now)).1 }
    ensures book { Becomes book.old book.new (put_on book.old (length demands.old) (length shares.old) (event_of message.now)).0 }
    ensures tables { message_writes message.now result ≡ false → (demands.new ≡ demands.old) × (shares.new ≡ shares.old) }
{
    match event_of(message) {
        Some(event) => book.take(event, demands, shares),
        None => Ok(0),
    }
}

// Reads the message at the reader's place and puts it to the book. An accepted entry answers its number, any other accepted event 0; at the
// exact end there is no answer. A message is passed once the reader accepts it, also when the book refuses it; a reader's refusal leaves the
// reader, the book, the rows and the tables. (Two slices and a 0, as the book takes and answers.)
pub fn attend_one<S: Sale>(
    reader: &mut Reader<'_>,
    book: &mut Book<'_, S>,
    demands: &mut [u32],
    shares: &mut [u32],
) -> Result<Option<u32>, SessionFault>
    ensures result { result ≡ answer_on book.old (length demands.old) (length shares.old) reader.old }
    ensures book { Becomes book.old book.new (sheet_on book.old (length demands.old) (length shares.old) reader.old) }
    ensures reader { Passes Session reader.old reader.new }
    ensures tables { writes_on book.old (length demands.old) (length shares.old) reader.old ≡ false → (demands.new ≡ demands.old) × (shares.new ≡ shares.old) }
{
    let ordinal = reader.passed();
    let place = reader.place();
    let Some(message) = read(reader, Call::Session)? else {
        return Ok(None);
    };
    let answer = locate(ordinal, place, put_message(book, &message, demands, shares))?;
    Ok(Some(answer))
}
