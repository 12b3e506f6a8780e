// The whole print of an input. (Each function says in one clause what it writes and in another which space suffices, as in `sale`: the next one
// builds on both.)
ghost use Rattle.std.specs.Prelude.{◌≡◌, length, take};
ghost use Rattle.cabinet.specs.Tables.{Suffices};
ghost use Rattle.wire.specs.declared.call.Call.TheVariants.{Opening};
ghost use Rattle.wire.specs.Reading.{reading};
ghost use Rattle.wire.specs.Writes.{Writes};
ghost use Rattle.cabinet.specs.Attended.{refusal_of};
ghost use Rattle.cabinet.specs.Prints.{rate_print, price_print, print_by, print_fields, print_seen, most_input, print_of};

use crate::fault::{LowerFault, SessionFault};
use crate::notice::fields_of;
use crate::sale::{ROWS, print_sale, write_refused};
use award::row::Row;
use print::refusal::Refusal;
use print::writer::write_no_act;
use terms::arrival::InArrivalOrder;
use terms::fault::NoticeFault;
use terms::notice::NoticeFields;
use terms::price::Price;
use terms::pro_rata::ProRata;
use terms::quote::Quote;
use terms::rate::Rate;
use terms::sharing::SharingRule;
use wire::fault::WriteFault;
use wire::reader::Reader;

// The most bytes of an input that are read.
const MOST_INPUT: usize = 65_536;

// The codes of the kinds and of the rules.
const RATE: u8 = Rate::CODE;

const PRICE: u8 = Price::CODE;

const PRO_RATA: u8 = ProRata::CODE;

const ARRIVAL: u8 = InArrivalOrder::CODE;

// The bytes of an input that are read.
fn front(input: &[u8]) -> &[u8]
    ensures { result.now ≡ take most_input input.now }
{
    &input[..MOST_INPUT.min(input.len())]
}

// The print of a sale at rates. (One function for every kind could not be proved: nothing bounds the size of a type parameter, so that its rows
// need not fit the memory.)
fn print_rates<R: SharingRule + Drop>(bytes: &[u8], space: &mut [u8]) -> Result<usize, WriteFault>
    ensures written { Writes (rate_print R.SharingRule.meaning R.SharingRule.CODE bytes.now) space.old space.new result }
    ensures enough { Suffices (length space.old) result }
{
    let mut rows = [Row::blank(Rate::lowest()); ROWS];
    print_sale::<Rate, R>(bytes, &mut rows, space)
}

// The print of a sale at prices.
fn print_prices<R: SharingRule + Drop>(bytes: &[u8], space: &mut [u8]) -> Result<usize, WriteFault>
    ensures written { Writes (price_print R.SharingRule.meaning R.SharingRule.CODE bytes.now) space.old space.new result }
    ensures enough { Suffices (length space.old) result }
{
    let mut rows = [Row::blank(Price::lowest()); ROWS];
    print_sale::<Price, R>(bytes, &mut rows, space)
}

// The print of the sale with these codes; a code that no kind or rule has is refused. (They are the bytes that were sent, and choose types.)
fn print_by(bytes: &[u8], kind: u8, rule: u8, space: &mut [u8]) -> Result<usize, WriteFault>
    ensures written { Writes (print_by bytes.now kind rule) space.old space.new result }
    ensures enough { Suffices (length space.old) result }
{
    match (kind, rule) {
        (RATE, PRO_RATA) => print_rates::<ProRata>(bytes, space),
        (RATE, ARRIVAL) => print_rates::<InArrivalOrder>(bytes, space),
        (PRICE, PRO_RATA) => print_prices::<ProRata>(bytes, space),
        (PRICE, ARRIVAL) => print_prices::<InArrivalOrder>(bytes, space),
        _ => write_refused(at_the_first(0, NoticeFault::AgainstRules.into()), space),
    }
}

// The print of the sale that a notice announces.
fn print_fields(
    bytes: &[u8],
    fields: Option<NoticeFields>,
    space: &mut [u8],
) -> Result<usize, WriteFault>
    ensures written { Writes (print_fields bytes.now fields) space.old space.new result }
    ensures enough { Suffices (length space.old) result }
{
    match fields {
        Some(fields) => print_by(bytes, fields.quote_code, fields.sharing_code, space),
        None => write_no_act(space),
    }
}

// The print of bytes of which the first message is to be a notice.
fn print_bytes(bytes: &[u8], space: &mut [u8]) -> Result<usize, WriteFault>
    ensures written { Writes (print_seen bytes.now (reading Opening bytes.now)) space.old space.new result }
    ensures enough { Suffices (length space.old) result }
{
    let mut reader = Reader::new(bytes);
    match reader.notice() {
        Ok(Some(message)) => print_fields(bytes, fields_of(&message), space),
        Ok(None) => write_no_act(space),
        Err(fault) => write_refused(at_the_first(fault.offset(), fault.into()), space),
    }
}

// The refusal of the first message, for a fault at a place.
fn at_the_first(place: usize, fault: LowerFault) -> Refusal
    ensures { result ≡ refusal_of (record { ordinal = 0; place = place; fault = fault }) }
{
    let fault = SessionFault {
        ordinal: 0,
        place,
        fault,
    };
    fault.into()
}

// The whole print of an input at the front of the space: of its first 65,536 bytes a line for each refusal, then the act, or that there is none.
// The count of the bytes is told, and the rest of the space is left; a space that is too short is left as it was.
pub fn print(input: &[u8], space: &mut [u8]) -> Result<usize, WriteFault>
    ensures written { Writes (print_of input.now) space.old space.new result }
    ensures enough { Suffices (length space.old) result }
{
    print_bytes(front(input), space)
}
