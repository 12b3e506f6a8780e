// Events, and what a book without work tables makes of them.
use book::book::Book;
use book::event::{Change, Entry, Event, Withdrawal};
use book::fault::BookFault;
use book::sale::Sale;

pub fn entry(series: [u8; 8], house: u32, second: u32, quote: i32, lots: u32) -> Event {
    Event::Entry(Entry {
        series,
        house,
        second,
        quote,
        lots,
    })
}

pub fn change(number: u32, house: u32, second: u32, quote: i32, lots: u32) -> Event {
    Event::Change(Change {
        number,
        house,
        second,
        quote,
        lots,
    })
}

pub fn withdrawal(number: u32, house: u32, second: u32) -> Event {
    Event::Withdrawal(Withdrawal {
        number,
        house,
        second,
    })
}

// Puts an event to the book.
pub fn put<S: Sale>(book: &mut Book<'_, S>, event: Event) -> Result<u32, BookFault> {
    book.take(event, &mut [], &mut [])
}
