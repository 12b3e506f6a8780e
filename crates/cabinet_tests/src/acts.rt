// Prints with an act.
use crate::inputs::{change, close, entry, limit, notice, prints};
use std::test::Fail;
use wire::message::Message;

#[test]
fn an_act_with_too_few_bids_is_void(rt: HostRuntime) -> Result<(), Fail> {
    prints(
        &rt,
        rt.alloc(),
        &[
            notice(1, 1, 100, 10, 50, 2),
            entry(10, 30_600, 600, 60),
            close(),
            limit(650),
        ],
        b"SERIED03 RATE VOID\n1 10 600 60 0 VOID\n",
    )
}

#[test]
fn an_act_below_the_least_placement_is_void(rt: HostRuntime) -> Result<(), Fail> {
    prints(
        &rt,
        rt.alloc(),
        &[
            notice(1, 1, 100, 10, 50, 2),
            entry(10, 30_600, 600, 20),
            entry(45, 30_600, 610, 29),
            close(),
            limit(650),
        ],
        b"SERIED03 RATE VOID\n1 10 600 20 0 VOID\n2 45 610 29 0 VOID\n",
    )
}

#[test]
fn bids_and_offer_that_meet_exactly_end_at_that_quote(rt: HostRuntime) -> Result<(), Fail> {
    prints(
        &rt,
        rt.alloc(),
        &[
            notice(1, 1, 100, 1, 1, 1),
            entry(10, 30_600, 600, 60),
            entry(45, 30_600, 610, 40),
            entry(2, 30_600, 620, 30),
            close(),
            limit(620),
        ],
        b"SERIED03 RATE CUT 610 PLACED 100 OF 100\n1 10 600 60 60 FULL\n2 45 610 40 40 FULL\n3 2 620 30 0 WORSE\n",
    )
}

#[test]
fn a_sale_at_prices_serves_the_higher_price_first(rt: HostRuntime) -> Result<(), Fail> {
    prints(
        &rt,
        rt.alloc(),
        &[
            notice(2, 1, 100, 1, 1, 1),
            entry(10, 30_600, 985_000, 60),
            entry(45, 30_600, 984_000, 60),
            entry(2, 30_600, 979_999, 5),
            close(),
            limit(980_000),
        ],
        b"SERIED03 PRICE CUT 984000 PLACED 100 OF 100\n1 10 985000 60 60 FULL\n2 45 984000 60 40 PART\n3 2 979999 5 0 OVER\n",
    )
}

#[test]
fn bids_at_the_cut_off_are_served_by_arrival_under_that_rule(rt: HostRuntime) -> Result<(), Fail> {
    prints(
        &rt,
        rt.alloc(),
        &[
            notice(1, 2, 100, 10, 50, 2),
            entry(10, 30_600, 620, 40),
            entry(45, 30_600, 640, 50),
            entry(2, 30_600, 640, 30),
            entry(10, 30_600, 640, 45),
            close(),
            limit(650),
        ],
        b"SERIED03 RATE CUT 640 PLACED 100 OF 100\n1 10 620 40 40 FULL\n2 45 640 50 50 FULL\n3 2 640 30 10 PART\n4 10 640 45 0 PART\n",
    )
}

#[test]
fn a_changed_bid_loses_its_arrival_place(rt: HostRuntime) -> Result<(), Fail> {
    prints(
        &rt,
        rt.alloc(),
        &[
            notice(1, 2, 100, 10, 50, 2),
            entry(10, 30_600, 640, 80),
            entry(45, 30_600, 640, 80),
            change(1, 10, 640, 80),
            close(),
            limit(650),
        ],
        b"SERIED03 RATE CUT 640 PLACED 100 OF 100\n1 10 640 80 20 PART\n2 45 640 80 80 FULL\n",
    )
}

#[test]
fn a_withdrawn_bid_is_out(rt: HostRuntime) -> Result<(), Fail> {
    let withdrawal = Message::Withdrawal {
        number: 1,
        house: 10,
        second: 30_600,
    };
    prints(
        &rt,
        rt.alloc(),
        &[
            notice(1, 1, 100, 1, 1, 1),
            entry(10, 30_600, 600, 60),
            entry(45, 30_600, 610, 40),
            withdrawal,
            withdrawal,
            close(),
            limit(650),
        ],
        b"REFUSED 4 11 107\nSERIED03 RATE CUT 610 PLACED 40 OF 100\n1 10 600 60 0 OUT\n2 45 610 40 40 FULL\n",
    )
}

#[test]
fn an_entry_in_the_closing_second_is_taken_and_one_later_is_not(
    rt: HostRuntime,
) -> Result<(), Fail> {
    prints(
        &rt,
        rt.alloc(),
        &[
            notice(1, 1, 100, 10, 50, 1),
            entry(10, 46_800, 600, 60),
            entry(45, 46_801, 600, 40),
            close(),
            limit(650),
        ],
        b"REFUSED 2 13 63\nSERIED03 RATE CUT 600 PLACED 60 OF 100\n1 10 600 60 60 FULL\n",
    )
}

#[test]
fn what_is_sent_after_the_award_is_refused_and_alters_nothing(rt: HostRuntime) -> Result<(), Fail> {
    prints(
        &rt,
        rt.alloc(),
        &[
            notice(1, 1, 100, 10, 50, 2),
            entry(10, 30_600, 600, 60),
            entry(45, 30_600, 610, 40),
            close(),
            limit(650),
            limit(600),
            entry(2, 46_800, 590, 40),
        ],
        b"REFUSED 5 6 107\nREFUSED 6 6 115\nSERIED03 RATE CUT 610 PLACED 100 OF 100\n1 10 600 60 60 FULL\n2 45 610 40 40 FULL\n",
    )
}
