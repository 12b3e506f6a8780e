// What a book tells after the award.
use crate::events::{change, entry, put, withdrawal};
use award::row::Row;
use book::book::Book;
use book::event::Event;
use book::fault::BookFault;
use book::outcome::Outcome;
use book::sale::Sale;
use std::process::Abort;
use std::test::Fail;
use terms::arrival::InArrivalOrder;
use terms::check::check_notice;
use terms::checked::CheckedNotice;
use terms::notice::{Notice, NoticeFields};
use terms::price::Price;
use terms::pro_rata::ProRata;
use terms::quote::Quote;
use terms::rate::Rate;
use terms::sharing::SharingRule;

// A notice of an offer of 100 with a minimum bid of 1.
fn notice(
    quote_code: u8,
    sharing_code: u8,
    least_placement: u32,
    least_number: u8,
) -> NoticeFields {
    let notice = Notice {
        series: *b"SERIED03",
        offer: 100,
        minimum: 1,
        least_placement,
        least_number,
        opening: 30_600,
        closing: 46_800,
    };
    NoticeFields {
        quote_code,
        sharing_code,
        notice,
    }
}

// Enters a bid of a house.
fn enter<S: Sale>(rt: &impl Abort, book: &mut Book<'_, S>, house: u32, quote: i32, lots: u32) {
    assert!(rt; put(book, entry(*b"SERIED03", house, 30_600, quote, lots)).is_ok());
}

// Closes the book and gives the limit.
fn award<S: Sale>(rt: &impl Abort, book: &mut Book<'_, S>, limit: i32) {
    let mut demands = [0; 4];
    let mut shares = [0; 4];
    assert_eq!(rt; put(book, Event::Close { second: 46_800 }), Ok(0));
    assert_eq!(rt;
        book.take(Event::Limit { quote: limit }, &mut demands, &mut shares),
        Ok(0)
    );
}

// The number of the cut-off.
fn cut_number<S: Sale>(book: &Book<'_, S>) -> Option<i32> {
    book.cut_off().map(|cut| cut.number())
}

// An offer of 100 at rates, with the limit 620: 60 lots at 600, so many at 610 and 30 at 620. The cut-off, and the three allotments.
fn at_rates(rt: &impl Abort, middle: u32) -> Result<(Option<i32>, [u32; 3]), Fail> {
    let mut place = CheckedNotice::first();
    assert!(rt; check_notice::<Rate, ProRata>(&notice(1, 1, 1, 1), &mut place).is_ok());
    let mut rows = [Row::blank(Rate::read(0)?); 4];
    let mut book: Book<'_, (Rate, ProRata)> = Book::open(place, &mut rows);
    enter(rt, &mut book, 10, 600, 60);
    enter(rt, &mut book, 45, 610, middle);
    enter(rt, &mut book, 2, 620, 30);
    award(rt, &mut book, 620);
    assert_eq!(rt; book.placed(), 100);
    Ok((
        cut_number(&book),
        [book.allotment(1)?, book.allotment(2)?, book.allotment(3)?],
    ))
}

#[test]
fn bids_at_rates_come_out_as_by_hand(rt: HostRuntime) -> Result<(), Fail> {
    assert_eq!(rt; at_rates(&rt, 40)?, (Some(610), [60, 40, 0]));
    assert_eq!(rt; at_rates(&rt, 39)?, (Some(620), [60, 39, 1]));
    assert_eq!(rt; at_rates(&rt, 41)?, (Some(610), [60, 40, 0]));
    Ok(())
}

#[test]
fn bids_at_prices_come_out_as_by_hand(rt: HostRuntime) -> Result<(), Fail> {
    let mut place = CheckedNotice::first();
    assert!(rt; check_notice::<Price, ProRata>(&notice(2, 1, 1, 1), &mut place).is_ok());
    let mut rows = [Row::blank(Price::read(1)?); 2];
    let mut book: Book<'_, (Price, ProRata)> = Book::open(place, &mut rows);
    enter(&rt, &mut book, 10, 985_000, 60);
    enter(&rt, &mut book, 45, 984_000, 60);
    award(&rt, &mut book, 980_000);
    assert_eq!(rt; cut_number(&book), Some(984_000));
    assert_eq!(rt; book.outcome(1), Ok(Outcome::Full(60)));
    assert_eq!(rt; book.outcome(2), Ok(Outcome::Part(40)));
    Ok(())
}

// An offer of 100 at rates with a least placement of 50: 30 lots at 600, and so many at 610.
fn with_least(rt: &impl Abort, second: u32) -> Result<(Option<i32>, u64, [u32; 2]), Fail> {
    let mut place = CheckedNotice::first();
    assert!(rt; check_notice::<Rate, ProRata>(&notice(1, 1, 50, 2), &mut place).is_ok());
    let mut rows = [Row::blank(Rate::read(0)?); 2];
    let mut book: Book<'_, (Rate, ProRata)> = Book::open(place, &mut rows);
    enter(rt, &mut book, 10, 600, 30);
    enter(rt, &mut book, 45, 610, second);
    award(rt, &mut book, 620);
    Ok((
        cut_number(&book),
        book.placed(),
        [book.allotment(1)?, book.allotment(2)?],
    ))
}

#[test]
fn an_act_below_the_least_placement_is_void(rt: HostRuntime) -> Result<(), Fail> {
    assert_eq!(rt; with_least(&rt, 19)?, (None, 0, [0, 0]));
    assert_eq!(rt; with_least(&rt, 20)?, (Some(610), 50, [30, 20]));
    Ok(())
}

#[test]
fn a_changed_bid_is_served_last(rt: HostRuntime) -> Result<(), Fail> {
    let mut place = CheckedNotice::first();
    assert!(rt; check_notice::<Rate, InArrivalOrder>(&notice(1, 2, 1, 1), &mut place).is_ok());
    let mut rows = [Row::blank(Rate::read(0)?); 3];
    let mut book: Book<'_, (Rate, InArrivalOrder)> = Book::open(place, &mut rows);
    enter(&rt, &mut book, 10, 600, 60);
    enter(&rt, &mut book, 45, 600, 30);
    enter(&rt, &mut book, 2, 600, 30);
    assert_eq!(rt; put(&mut book, change(1, 10, 30_600, 600, 60)), Ok(0));
    award(&rt, &mut book, 600);
    assert_eq!(rt;
        [book.allotment(1)?, book.allotment(2)?, book.allotment(3)?],
        [40, 30, 30]
    );
    Ok(())
}

#[test]
fn questions_are_answered_from_the_award_on(rt: HostRuntime) -> Result<(), Fail> {
    let mut place = CheckedNotice::first();
    assert!(rt; check_notice::<Rate, ProRata>(&notice(1, 1, 1, 1), &mut place).is_ok());
    let mut rows = [Row::blank(Rate::read(0)?); 4];
    let mut book: Book<'_, (Rate, ProRata)> = Book::open(place, &mut rows);
    enter(&rt, &mut book, 10, 600, 60);
    enter(&rt, &mut book, 45, 640, 30);
    enter(&rt, &mut book, 2, 610, 50);
    enter(&rt, &mut book, 7, 615, 20);
    assert_eq!(rt; put(&mut book, withdrawal(1, 10, 30_600)), Ok(0));
    assert_eq!(rt; book.count(), 3);
    assert_eq!(rt; book.allotment(1), Err(BookFault::NotInThisState));
    assert_eq!(rt; book.outcome(9), Err(BookFault::NotInThisState));
    assert_eq!(rt;
        (cut_number(&book), book.placed(), book.is_decided()),
        (None, 0, false)
    );
    award(&rt, &mut book, 620);
    assert_eq!(rt;
        (cut_number(&book), book.placed(), book.is_decided()),
        (Some(615), 70, true)
    );
    assert_eq!(rt;
        (book.allotment(1), book.outcome(1)),
        (Ok(0), Ok(Outcome::Out))
    );
    assert_eq!(rt;
        (book.allotment(2), book.outcome(2)),
        (Ok(0), Ok(Outcome::Over))
    );
    assert_eq!(rt;
        (book.allotment(3), book.outcome(3)),
        (Ok(50), Ok(Outcome::Full(50)))
    );
    assert_eq!(rt; book.allotment(0), Err(BookFault::NoSuchBid));
    assert_eq!(rt; book.outcome(5), Err(BookFault::NoSuchBid));
    assert_eq!(rt; (book.bids_entered(), book.count()), (4, 3));
    Ok(())
}
