// A whole run of calls, each with its answer.
use award::row::Row;
use book::event::{Change, Entry, Event, Withdrawal};
use book::outcome::Outcome;
use runs::call::{Answer, Call, Exchange};
use runs::run::run;
use std::test::Fail;
use terms::checked::CheckedNotice;
use terms::pro_rata::ProRata;
use terms::quote::Quote;
use terms::rate::Rate;

// What a call is answered, with the number of a refusal.
type Told = Result<Answer<Rate>, u8>;

fn accepted(number: u32) -> Told {
    Ok(Answer::Accepted(number))
}

fn refused(number: u8) -> Told {
    Err(number)
}

fn lots(allotted: u32) -> Told {
    Ok(Answer::Allotment(allotted))
}

fn told(outcome: Outcome) -> Told {
    Ok(Answer::Outcome(outcome))
}

// Events, which need no work tables but for the limit.
fn put(event: Event) -> Call {
    Call::Put {
        event,
        demands: 0,
        shares: 0,
    }
}

fn entry(house: u32, second: u32, quote: i32, lots: u32) -> Call {
    put(Event::Entry(Entry {
        series: *b"SERIED03",
        house,
        second,
        quote,
        lots,
    }))
}

fn change(number: u32, house: u32, second: u32, quote: i32, lots: u32) -> Call {
    put(Event::Change(Change {
        number,
        house,
        second,
        quote,
        lots,
    }))
}

fn withdrawal(number: u32, house: u32, second: u32) -> Call {
    put(Event::Withdrawal(Withdrawal {
        number,
        house,
        second,
    }))
}

fn close(second: u32) -> Call {
    put(Event::Close { second })
}

fn limit(quote: i32, demands: usize, shares: usize) -> Call {
    Call::Put {
        event: Event::Limit { quote },
        demands,
        shares,
    }
}

fn allotment(number: u32) -> Call {
    Call::Allotment { number }
}

fn outcome(number: u32) -> Call {
    Call::Outcome { number }
}

// Six rows, an offer of 100 at rates shared pro rata, the minimum 10, the least placement 50 and the least number 2. The balance of 60 at 640
// is divided among bid 2, bid 4, and bid 3, which came last by its change.
#[test]
fn each_call_of_a_run_is_answered_by_the_calls_before_it(rt: HostRuntime) -> Result<(), Fail> {
    let mut rows = [Row::blank(Rate::read(0)?); 6];
    let made = [
        (entry(10, 30_600, 620, 40), accepted(1)),
        (entry(45, 30_601, 640, 50), accepted(2)),
        (entry(2, 30_602, 640, 20), accepted(3)),
        (entry(10, 30_603, 640, 45), accepted(4)),
        (entry(45, 30_604, 660, 80), accepted(5)),
        (entry(45, 30_605, 600, 5), refused(10)),
        (entry(8, 30_605, 600, 10), accepted(6)),
        (entry(8, 30_606, 600, 10), refused(14)),
        (Call::Count, Ok(Answer::Count(6))),
        (change(3, 2, 30_606, 640, 30), accepted(0)),
        (withdrawal(6, 9, 30_607), refused(12)),
        (withdrawal(6, 8, 30_607), accepted(0)),
        (change(6, 8, 30_608, 600, 10), refused(11)),
        (Call::Count, Ok(Answer::Count(5))),
        (allotment(1), refused(6)),
        (Call::CutOff, Ok(Answer::CutOff(None))),
        (Call::Placed, Ok(Answer::Placed(0))),
        (limit(650, 6, 6), refused(6)),
        (close(46_799), refused(13)),
        (close(46_800), accepted(0)),
        (entry(8, 46_800, 600, 10), refused(6)),
        (limit(650, 5, 6), refused(16)),
        (limit(650, 6, 5), refused(16)),
        (limit(650, 6, 5_000), accepted(0)),
        (Call::Placed, Ok(Answer::Placed(100))),
        (Call::CutOff, Ok(Answer::CutOff(Some(Rate::read(640)?)))),
        (allotment(1), lots(40)),
        (allotment(2), lots(24)),
        (allotment(3), lots(15)),
        (allotment(4), lots(21)),
        (allotment(6), lots(0)),
        (allotment(7), refused(11)),
        (outcome(1), told(Outcome::Full(40))),
        (outcome(2), told(Outcome::Part(24))),
        (outcome(5), told(Outcome::Over)),
        (outcome(6), told(Outcome::Out)),
        (outcome(0), refused(11)),
        (limit(650, 6, 6), refused(6)),
    ];
    let mut calls = [Exchange {
        call: Call::Count,
        answer: None,
    }; 38];
    for (exchange, (call, _)) in calls.iter_mut().zip(made.iter()) {
        exchange.call = *call;
    }
    run::<(Rate, ProRata)>(CheckedNotice::first(), &mut rows, &mut calls);
    for (exchange, (_, answer)) in calls.iter().zip(made.iter()) {
        let answered = exchange
            .answer
            .map(|told| told.map_err(|fault| fault.number()));
        assert_eq!(rt; answered, Some(*answer));
    }
    Ok(())
}
