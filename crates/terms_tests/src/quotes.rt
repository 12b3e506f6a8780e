// Kinds of quote at the ends of their ranges.
use terms::price::Price;
use terms::quote::Quote;
use terms::rate::Rate;

// The number that a kind gives back for a number, or the number of the refusal.
fn read_back<Q: Quote>(value: i32) -> Result<i32, u8> {
    Q::read(value)
        .map(|quote| quote.number())
        .map_err(|fault| fault.number())
}

#[test]
fn a_rate_is_0_to_9_999(rt: HostRuntime) {
    for (value, answer) in [
        (0, Ok(0)),
        (9_999, Ok(9_999)),
        (-1, Err(9)),
        (10_000, Err(9)),
        (i32::MIN, Err(9)),
        (i32::MAX, Err(9)),
    ] {
        assert_eq!(rt; read_back::<Rate>(value), answer);
    }
}

#[test]
fn a_price_is_1_to_1_500_000(rt: HostRuntime) {
    for (value, answer) in [
        (1, Ok(1)),
        (1_500_000, Ok(1_500_000)),
        (0, Err(9)),
        (1_500_001, Err(9)),
        (i32::MIN, Err(9)),
    ] {
        assert_eq!(rt; read_back::<Price>(value), answer);
    }
}

// Whether the first of two numbers is no worse than the second, as quotes of a kind.
fn no_worse<Q: Quote>(first: i32, second: i32) -> Option<bool> {
    Some(Q::read(first).ok()?.no_worse(Q::read(second).ok()?))
}

#[test]
fn a_lower_rate_and_a_higher_price_are_better(rt: HostRuntime) {
    assert_eq!(rt; no_worse::<Rate>(610, 620), Some(true));
    assert_eq!(rt; no_worse::<Rate>(620, 610), Some(false));
    assert_eq!(rt; no_worse::<Rate>(620, 620), Some(true));
    assert_eq!(rt; no_worse::<Price>(985_000, 984_000), Some(true));
    assert_eq!(rt; no_worse::<Price>(984_000, 985_000), Some(false));
}

#[test]
fn kinds_have_their_codes_and_words(rt: HostRuntime) {
    assert_eq!(rt; (Rate::CODE, Price::CODE), (1, 2));
    assert!(rt; Rate::word() == b"RATE".as_slice());
    assert!(rt; Price::word() == b"PRICE".as_slice());
}
