// Prints of inputs that the reader refuses, or does not read to their end.
use crate::inputs::{change, entry, input, notice, prints, prints_bytes, send};
use std::test::Fail;

#[test]
fn an_entry_in_the_place_of_the_notice_is_refused_at_its_kind(rt: HostRuntime) -> Result<(), Fail> {
    prints(
        &rt,
        rt.alloc(),
        &[entry(10, 30_600, 620, 40)],
        b"REFUSED 0 4 3\nNO ACT\n",
    )
}

#[test]
fn a_second_notice_stops_the_reading_at_its_kind(rt: HostRuntime) -> Result<(), Fail> {
    let opening = notice(1, 1, 100, 10, 50, 2);
    prints(
        &rt,
        rt.alloc(),
        &[
            opening,
            entry(10, 30_600, 620, 40),
            opening,
            entry(0, 30_600, 620, 40),
        ],
        b"REFUSED 2 4 66\nNO ACT\n",
    )
}

#[test]
fn bytes_that_are_no_message_stop_the_reading(rt: HostRuntime) -> Result<(), Fail> {
    let mut bytes = input(
        rt.alloc(),
        &[notice(1, 1, 100, 10, 50, 2), entry(10, 30_600, 620, 40)],
    )?;
    bytes.push(0)?;
    prints_bytes(
        &rt,
        rt.alloc(),
        bytes.as_slice(),
        b"REFUSED 2 1 63\nNO ACT\n",
    )?;
    bytes.extend_from_slice(&[2, 2, 4])?;
    prints_bytes(
        &rt,
        rt.alloc(),
        bytes.as_slice(),
        b"REFUSED 2 3 65\nNO ACT\n",
    )
}

#[test]
fn a_thousand_and_twenty_four_bids_are_taken_and_no_more(rt: HostRuntime) -> Result<(), Fail> {
    let mut bytes = input(rt.alloc(), &[notice(1, 1, 100, 10, 50, 2)])?;
    for _ in 0..1_025 {
        send(&mut bytes, &entry(10, 30_600, 620, 40))?;
    }
    prints_bytes(
        &rt,
        rt.alloc(),
        bytes.as_slice(),
        b"REFUSED 1025 14 28707\nNO ACT\n",
    )
}

#[test]
fn no_more_than_65_536_bytes_are_read(rt: HostRuntime) -> Result<(), Fail> {
    let mut bytes = input(
        rt.alloc(),
        &[notice(1, 1, 100, 10, 50, 2), entry(10, 30_600, 620, 40)],
    )?;
    for _ in 0..2_730 {
        send(&mut bytes, &change(1, 10, 620, 40))?;
    }
    prints_bytes(
        &rt,
        rt.alloc(),
        bytes.as_slice(),
        b"REFUSED 2730 1 65535\nNO ACT\n",
    )
}
