// What calls are answered.
use crate::events::{change, entry, put, withdrawal};
use award::row::Row;
use book::book::Book;
use book::event::Event;
use book::fault::BookFault;
use std::process::Abort;
use std::test::Fail;
use terms::checked::CheckedNotice;
use terms::pro_rata::ProRata;
use terms::quote::Quote;
use terms::rate::Rate;

// A call, and the answer to it, with the number of a refusal.
#[derive(Clone, Copy)]
struct Case {
    event: Event,
    answer: Result<u32, u8>,
}

// A call that is answered with a number.
fn takes(event: Event, number: u32) -> Case {
    Case {
        event,
        answer: Ok(number),
    }
}

// A call that is refused.
fn refuses(event: Event, refusal: u8) -> Case {
    Case {
        event,
        answer: Err(refusal),
    }
}

// Puts each call to a book of rates, on the notice of SERIED03: offer 100, minimum 10, seconds 30,600 to 46,800.
fn plays(
    rt: &impl Abort,
    rows: &mut [Row<Rate>],
    demands: &mut [u32],
    shares: &mut [u32],
    cases: &[Case],
) {
    let mut book: Book<'_, (Rate, ProRata)> = Book::open(CheckedNotice::first(), rows);
    for case in cases {
        let answer = book.take(case.event, demands, shares);
        assert_eq!(rt; answer.map_err(|fault| fault.number()), case.answer);
    }
}

#[test]
fn an_entry_is_judged_at_each_bound(rt: HostRuntime) -> Result<(), Fail> {
    let mut rows = [Row::blank(Rate::read(0)?); 7];
    plays(
        &rt,
        &mut rows,
        &mut [],
        &mut [0, 0],
        &[
            refuses(entry(*b"SERIED04", 0, 0, -1, 0), 7),
            refuses(entry(*b"TERIED03", 1, 30_600, 620, 10), 7),
            refuses(entry(*b"SERIED03", 0, 0, -1, 0), 8),
            refuses(entry(*b"SERIED03", 10_000, 30_600, 620, 10), 8),
            refuses(entry(*b"SERIED03", 1, 0, -1, 0), 9),
            refuses(entry(*b"SERIED03", 1, 30_600, 10_000, 10), 9),
            refuses(entry(*b"SERIED03", 1, 0, 0, 9), 10),
            refuses(entry(*b"SERIED03", 1, 30_600, 0, 101), 10),
            refuses(entry(*b"SERIED03", 1, 30_599, 0, 10), 13),
            takes(entry(*b"SERIED03", 1, 30_600, 0, 10), 1),
            takes(entry(*b"SERIED03", 9_999, 30_600, 9_999, 100), 2),
            takes(entry(*b"SERIED03", 1, 30_700, 620, 10), 3),
            refuses(entry(*b"SERIED03", 1, 30_699, 620, 10), 13),
            takes(entry(*b"SERIED03", 1, 30_700, 620, 10), 4),
            takes(entry(*b"SERIED03", 1, 46_800, 620, 10), 5),
            refuses(entry(*b"SERIED03", 1, 46_801, 620, 10), 13),
            takes(entry(*b"SERIED03", 1, 46_800, 620, 10), 6),
            takes(entry(*b"SERIED03", 1, 46_800, 620, 10), 7),
            refuses(entry(*b"SERIED03", 1, 46_800, 620, 10), 14),
            refuses(entry(*b"SERIED03", 1, 46_799, 620, 10), 13),
        ],
    );
    Ok(())
}

#[test]
fn a_change_and_a_withdrawal_are_judged_by_the_bid_they_name(rt: HostRuntime) -> Result<(), Fail> {
    let mut rows = [Row::blank(Rate::read(0)?); 4];
    plays(
        &rt,
        &mut rows,
        &mut [],
        &mut [0, 0],
        &[
            refuses(change(1, 10, 30_600, 620, 10), 11),
            takes(entry(*b"SERIED03", 10, 30_700, 620, 40), 1),
            takes(entry(*b"SERIED03", 45, 30_700, 640, 50), 2),
            refuses(change(0, 10, 30_700, 620, 10), 11),
            refuses(change(3, 10, 30_700, 620, 10), 11),
            refuses(change(1, 45, 30_600, 620, 10), 12),
            refuses(change(1, 0, 30_600, -1, 9), 8),
            refuses(change(7, 10, 30_600, -1, 9), 9),
            refuses(change(7, 10, 30_600, 620, 9), 10),
            refuses(change(1, 10, 30_699, 620, 10), 13),
            takes(change(1, 10, 30_700, 600, 30), 0),
            refuses(withdrawal(1, 45, 30_600), 12),
            refuses(withdrawal(3, 45, 30_600), 11),
            refuses(withdrawal(1, 10_000, 30_600), 8),
            refuses(withdrawal(1, 10, 46_801), 13),
            takes(withdrawal(1, 10, 30_800), 0),
            refuses(withdrawal(1, 10, 30_800), 11),
            refuses(withdrawal(1, 45, 30_800), 11),
            refuses(change(1, 45, 30_800, 600, 30), 11),
            refuses(entry(*b"SERIED03", 10, 30_799, 620, 40), 13),
            takes(entry(*b"SERIED03", 10, 30_800, 620, 40), 3),
        ],
    );
    Ok(())
}

#[test]
fn each_state_takes_its_own_calls(rt: HostRuntime) -> Result<(), Fail> {
    let mut rows = [Row::blank(Rate::read(0)?); 2];
    plays(
        &rt,
        &mut rows,
        &mut [0],
        &mut [0, 0],
        &[
            takes(entry(*b"SERIED03", 10, 30_700, 620, 40), 1),
            takes(entry(*b"SERIED03", 45, 30_700, 640, 50), 2),
            refuses(Event::Limit { quote: 640 }, 6),
            refuses(Event::Close { second: 46_799 }, 13),
            refuses(Event::Close { second: 86_400 }, 13),
            takes(Event::Close { second: 86_399 }, 0),
            refuses(Event::Close { second: 86_399 }, 6),
            refuses(entry(*b"SERIED04", 10, 30_700, 620, 40), 6),
            refuses(change(1, 10, 30_700, 620, 10), 6),
            refuses(withdrawal(1, 10, 30_700), 6),
            refuses(Event::Limit { quote: 10_000 }, 9),
            refuses(Event::Limit { quote: 640 }, 16),
        ],
    );
    plays(
        &rt,
        &mut rows,
        &mut [0, 0],
        &mut [0, 0],
        &[
            takes(entry(*b"SERIED03", 10, 30_700, 620, 40), 1),
            takes(entry(*b"SERIED03", 45, 30_700, 640, 50), 2),
            takes(Event::Close { second: 46_800 }, 0),
            takes(Event::Limit { quote: 640 }, 0),
            refuses(Event::Limit { quote: 640 }, 6),
            refuses(Event::Close { second: 46_800 }, 6),
        ],
    );
    Ok(())
}

#[test]
fn without_rows_there_is_no_room(rt: HostRuntime) {
    plays(
        &rt,
        &mut [],
        &mut [],
        &mut [],
        &[
            refuses(entry(*b"SERIED03", 10, 30_700, 620, 40), 14),
            takes(Event::Close { second: 46_800 }, 0),
            takes(Event::Limit { quote: 640 }, 0),
        ],
    );
}

#[test]
fn a_million_arrival_places_are_given_and_no_more(rt: HostRuntime) -> Result<(), Fail> {
    let mut rows = [Row::blank(Rate::read(0)?); 2];
    let mut book: Book<'_, (Rate, ProRata)> = Book::open(CheckedNotice::first(), &mut rows);
    let _ = put(&mut book, entry(*b"SERIED03", 10, 30_700, 620, 40));
    for _ in 0..999_998 {
        let _ = put(&mut book, change(1, 10, 30_700, 620, 40));
    }
    assert_eq!(rt; put(&mut book, change(1, 10, 30_700, 630, 40)), Ok(0));
    assert_eq!(rt;
        put(&mut book, change(1, 10, 30_700, 640, 40)),
        Err(BookFault::NoPlaceLeft)
    );
    assert_eq!(rt;
        put(&mut book, entry(*b"SERIED03", 10, 30_700, 620, 40)),
        Err(BookFault::NoPlaceLeft)
    );
    Ok(())
}
