// The rules of a notice at their bounds.
use std::process::Abort;
use std::test::Fail;
use terms::check::check_notice;
use terms::checked::CheckedNotice;
use terms::notice::{Notice, NoticeFields};
use terms::pro_rata::ProRata;
use terms::quote::Quote;
use terms::rate::Rate;

// A notice that keeps the rules.
fn fine() -> Notice {
    CheckedNotice::first().notice()
}

// Whether a notice is accepted with its codes, checked for rates shared pro rata; a refusal is 17 and leaves the place.
fn accepted(
    rt: &impl Abort,
    quote_code: u8,
    sharing_code: u8,
    notice: Notice,
) -> Result<bool, Fail> {
    let mut place = CheckedNotice::first();
    let fields = NoticeFields {
        quote_code,
        sharing_code,
        notice,
    };
    match check_notice::<Rate, ProRata>(&fields, &mut place) {
        Ok(()) => {
            assert_eq!(rt; place.notice().offer, notice.offer);
            Ok(true)
        }
        Err(fault) => {
            assert_eq!(rt; fault.number(), 17);
            assert_eq!(rt; place.notice().offer, 100);
            Ok(false)
        }
    }
}

#[test]
fn the_codes_are_those_of_the_kind_and_the_rule(rt: HostRuntime) -> Result<(), Fail> {
    assert!(rt; accepted(&rt, 1, 1, fine())?);
    assert!(rt; !accepted(&rt, 2, 1, fine())?);
    assert!(rt; !accepted(&rt, 1, 2, fine())?);
    assert!(rt; !accepted(&rt, 0, 0, fine())?);
    Ok(())
}

#[test]
fn a_series_is_of_capitals_and_digits(rt: HostRuntime) -> Result<(), Fail> {
    for (byte, fits) in [
        (b'A', true),
        (b'Z', true),
        (b'0', true),
        (b'9', true),
        (b'@', false),
        (b'[', false),
        (b'/', false),
        (b':', false),
        (b'a', false),
        (0, false),
        (255, false),
    ] {
        let mut notice = fine();
        notice.series[7] = byte;
        assert_eq!(rt; accepted(&rt, 1, 1, notice)?, fits);
    }
    Ok(())
}

#[test]
fn lots_are_within_the_offer(rt: HostRuntime) -> Result<(), Fail> {
    for (offer, minimum, least_placement, fits) in [
        (1, 1, 1, true),
        (1_000_000_000, 1_000_000_000, 1_000_000_000, true),
        (0, 1, 1, false),
        (1_000_000_001, 1, 1, false),
        (100, 0, 50, false),
        (100, 101, 50, false),
        (100, 10, 0, false),
        (100, 10, 101, false),
    ] {
        let notice = Notice {
            offer,
            minimum,
            least_placement,
            ..fine()
        };
        assert_eq!(rt; accepted(&rt, 1, 1, notice)?, fits);
    }
    Ok(())
}

#[test]
fn bids_are_one_or_two_at_least_and_seconds_of_one_day(rt: HostRuntime) -> Result<(), Fail> {
    for (least_number, opening, closing, fits) in [
        (1, 0, 86_399, true),
        (2, 86_398, 86_399, true),
        (0, 0, 86_399, false),
        (3, 0, 86_399, false),
        (1, 0, 0, false),
        (1, 500, 499, false),
        (1, 0, 86_400, false),
    ] {
        let notice = Notice {
            least_number,
            opening,
            closing,
            ..fine()
        };
        assert_eq!(rt; accepted(&rt, 1, 1, notice)?, fits);
    }
    Ok(())
}
