// The line of a refusal.
use crate::written;
use print::refusal::Refusal;
use print::writer::write_refusal;

// Whether the refusal is written as the bytes, and the rest of the space left.
fn is_written(refusal: &Refusal, bytes: &[u8]) -> bool {
    written::is_written(|space| write_refusal(refusal, space), bytes)
}

#[test]
fn a_refusal_tells_ordinal_number_and_place(rt: HostRuntime) {
    let refusal = Refusal {
        ordinal: 6,
        number: 10,
        place: 175,
    };
    assert!(rt; is_written(&refusal, b"REFUSED 6 10 175\n"));
}

#[test]
fn the_longest_refusal_has_54_bytes(rt: HostRuntime) {
    let refusal = Refusal {
        ordinal: 18_446_744_073_709_551_615,
        number: 255,
        place: 18_446_744_073_709_551_615,
    };
    assert!(rt;
        is_written(
            &refusal,
            b"REFUSED 18446744073709551615 255 18446744073709551615\n",
        )
    );
}

#[test]
fn a_space_one_byte_short_is_refused_with_19_and_left(rt: HostRuntime) {
    let refusal = Refusal {
        ordinal: 0,
        number: 1,
        place: 0,
    };
    let mut enough = [238u8; 14];
    assert!(rt; write_refusal(&refusal, &mut enough).is_ok());
    assert!(rt; &enough == b"REFUSED 0 1 0\n");
    let mut short = [238u8; 13];
    assert!(rt; write_refusal(&refusal, &mut short).is_err_and(|fault| fault.number() == 19));
    assert!(rt; short == [238u8; 13]);
}
