// Books worked by hand, run through the code; and what a withdrawn bid, a bid past the limit and a short table come to.
ghost use Rattle.std.specs.Prelude.{◌≡◌};

use award::allot::allot;
use award::award::award;
use award::bids::Bids;
use award::conditions::Conditions;
use award::demand::standing_count;
use award::row::Row;
use std::process::Abort;
use std::test::Fail;
use terms::arrival::InArrivalOrder;
use terms::price::Price;
use terms::pro_rata::ProRata;
use terms::quote::Quote;
use terms::rate::Rate;
use terms::sharing::SharingRule;

// A standing bid.
fn bid<Q: Quote>(number: u32, lots: u32, quote: Q) -> Row<Q>
    ensures { result.lots ≡ lots }
{
    Row::new(number, number, quote, lots)
}

// The number of a quote that may be absent.
fn number_of<Q: Quote>(quote: Option<Q>) -> Option<i32> {
    quote.map(|quote| quote.number())
}

// An offer of 100 at rates, with the limit 620: 60 lots at 600, `middle` at 610 and 30 at 620.
fn at_rates(rt: &impl Abort, middle: u32) -> Result<(Option<i32>, [u32; 3]), Fail> {
    assert!(rt; middle >= 1 && middle <= 100);
    let rows = [
        bid(1, 60, Rate::read(600)?),
        bid(2, middle, Rate::read(610)?),
        bid(3, 30, Rate::read(620)?),
    ];
    let mut lots = [0; 3];
    let mut shares = [0; 3];
    let conditions = Conditions {
        offer: 100,
        least_number: 1,
        least_placement: 1,
    };
    let cut = award::<Rate, ProRata>(
        Bids { rows: &rows },
        conditions,
        Rate::read(620)?,
        &mut lots,
        &mut shares,
    )?;
    Ok((number_of(cut), lots))
}

#[test]
fn bids_and_offer_that_meet_exactly_stop_at_their_quote(rt: HostRuntime) -> Result<(), Fail> {
    assert_eq!(rt; at_rates(&rt, 40)?, (Some(610), [60, 40, 0]));
    Ok(())
}

#[test]
fn one_lot_less_goes_on_to_the_next_quote(rt: HostRuntime) -> Result<(), Fail> {
    assert_eq!(rt; at_rates(&rt, 39)?, (Some(620), [60, 39, 1]));
    Ok(())
}

#[test]
fn one_lot_more_is_cut(rt: HostRuntime) -> Result<(), Fail> {
    assert_eq!(rt; at_rates(&rt, 41)?, (Some(610), [60, 40, 0]));
    Ok(())
}

#[test]
fn the_higher_price_is_served_first(rt: HostRuntime) -> Result<(), Fail> {
    let rows = [
        bid(1, 60, Price::read(985_000)?),
        bid(2, 60, Price::read(984_000)?),
    ];
    let mut lots = [0; 2];
    let mut shares = [0; 2];
    let conditions = Conditions {
        offer: 100,
        least_number: 1,
        least_placement: 1,
    };
    let cut = award::<Price, ProRata>(
        Bids { rows: &rows },
        conditions,
        Price::read(980_000)?,
        &mut lots,
        &mut shares,
    )?;
    assert_eq!(rt; number_of(cut), Some(984_000));
    assert_eq!(rt; lots, [60, 40]);
    Ok(())
}

// An offer of 100 with a least placement of 50, of two bids at least: 30 lots at 600 and `second` at 610, with this limit.
fn with_least(rt: &impl Abort, second: u32, limit: i32) -> Result<(Option<i32>, [u32; 2]), Fail> {
    assert!(rt; second >= 1 && second <= 100);
    let rows = [
        bid(1, 30, Rate::read(600)?),
        bid(2, second, Rate::read(610)?),
    ];
    let mut lots = [7; 2];
    let mut shares = [7; 2];
    let conditions = Conditions {
        offer: 100,
        least_number: 2,
        least_placement: 50,
    };
    let cut = award::<Rate, ProRata>(
        Bids { rows: &rows },
        conditions,
        Rate::read(limit)?,
        &mut lots,
        &mut shares,
    )?;
    Ok((number_of(cut), lots))
}

#[test]
fn a_demand_below_the_least_placement_makes_the_act_void(rt: HostRuntime) -> Result<(), Fail> {
    assert_eq!(rt; with_least(&rt, 19, 620)?, (None, [0, 0]));
    assert_eq!(rt; with_least(&rt, 20, 620)?, (Some(610), [30, 20]));
    Ok(())
}

#[test]
fn a_bid_past_the_limit_gets_nothing(rt: HostRuntime) -> Result<(), Fail> {
    assert_eq!(rt; with_least(&rt, 99, 605)?, (None, [0, 0]));
    assert_eq!(rt; with_least(&rt, 99, 610)?, (Some(610), [30, 70]));
    Ok(())
}

// An offer of 100, the limit 650: bids of 50, 45, 30 and 45 lots at 640, the second withdrawn, and one of 40 at 620 that came after the
// first two. The lots by row and the shares, each table with places to spare.
fn divided<R: SharingRule>(rt: &impl Abort) -> Result<([u32; 6], [u32; 5]), Fail> {
    let cut = Rate::read(640)?;
    let withdrawn = Row {
        standing: false,
        ..bid(5, 45, cut)
    };
    let rows = [
        bid(2, 50, cut),
        withdrawn,
        bid(1, 40, Rate::read(620)?),
        bid(3, 30, cut),
        bid(4, 45, cut),
    ];
    let mut lots = [9; 6];
    let mut shares = [9; 5];
    let conditions = Conditions {
        offer: 100,
        least_number: 2,
        least_placement: 50,
    };
    let told = award::<Rate, R>(
        Bids { rows: &rows },
        conditions,
        Rate::read(650)?,
        &mut lots,
        &mut shares,
    )?;
    assert_eq!(rt; number_of(told), Some(640));
    Ok((lots, shares))
}

#[test]
fn the_balance_is_divided_pro_rata_among_the_bids_that_stand_at_the_cut_off(
    rt: HostRuntime,
) -> Result<(), Fail> {
    assert_eq!(rt;
        divided::<ProRata>(&rt)?,
        ([24, 0, 40, 15, 21, 9], [24, 15, 21, 9, 9])
    );
    Ok(())
}

#[test]
fn or_by_arrival(rt: HostRuntime) -> Result<(), Fail> {
    assert_eq!(rt;
        divided::<InArrivalOrder>(&rt)?,
        ([50, 0, 40, 10, 0, 9], [50, 10, 0, 9, 9])
    );
    Ok(())
}

#[test]
fn allotments_are_written_as_far_as_rows_and_lots_go(rt: HostRuntime) -> Result<(), Fail> {
    let quote = Rate::read(600)?;
    let withdrawn = Row {
        standing: false,
        ..bid(2, 20, quote)
    };
    let mut rows = [bid(1, 10, quote), withdrawn, bid(3, 30, quote)];
    assert_eq!(rt; standing_count(&rows), 2);
    allot(&mut rows, &[5, 6]);
    assert_eq!(rt;
        (rows[0].allotted, rows[1].allotted, rows[2].allotted),
        (5, 6, 0)
    );
    assert_eq!(rt; rows[2].with_lots(7).allotted, 7);
    Ok(())
}

#[test]
fn a_table_shorter_than_the_rows_is_refused_and_left(rt: HostRuntime) -> Result<(), Fail> {
    let rows = [bid(1, 60, Rate::read(600)?), bid(2, 60, Rate::read(610)?)];
    let conditions = Conditions {
        offer: 100,
        least_number: 1,
        least_placement: 1,
    };
    let mut long = [7; 2];
    let mut short = [7; 1];
    let told = award::<Rate, ProRata>(
        Bids { rows: &rows },
        conditions,
        Rate::read(620)?,
        &mut long,
        &mut short,
    );
    assert!(rt; told.is_err_and(|fault| fault.number() == 16));
    assert_eq!(rt; long, [7, 7]);
    assert_eq!(rt; short, [7]);
    Ok(())
}
