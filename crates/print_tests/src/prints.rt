// Whole prints.
use crate::written;
use book::outcome::Outcome;
use print::act::Act;
use print::head::{Cut, Head};
use print::refusal::Refusal;
use print::row::ActRow;
use print::writer::{write_no_act, write_print};

// Whether the print is written as the bytes, and the rest of the space left.
fn is_written(refusals: &[Refusal], ending: Option<Act<'_>>, bytes: &[u8]) -> bool {
    written::is_written(|space| write_print(refusals, ending, space), bytes)
}

// Whether a space of the length is long enough for the print.
fn fits(refusals: &[Refusal], ending: Option<Act<'_>>, length: usize) -> bool {
    let mut space = [238u8; 160];
    length <= 160 && write_print(refusals, ending, &mut space[0..length]).is_ok()
}

#[test]
fn the_refusals_come_before_the_act(rt: HostRuntime) {
    let refusals = [
        Refusal {
            ordinal: 2,
            number: 8,
            place: 63,
        },
        Refusal {
            ordinal: 6,
            number: 10,
            place: 175,
        },
    ];
    let head = Head {
        series: *b"SERIED03",
        word: b"RATE",
        award: Some(Cut {
            cut: 0,
            placed: 10,
            offer: 20,
        }),
    };
    let rows = [
        ActRow {
            number: 1,
            house: 12,
            quote: 0,
            lots: 10,
            allotted: 10,
            outcome: Outcome::Full(10),
        },
        ActRow {
            number: 2,
            house: 45,
            quote: 9999,
            lots: 50,
            allotted: 0,
            outcome: Outcome::Over,
        },
        ActRow {
            number: 3,
            house: 45,
            quote: 12,
            lots: 1,
            allotted: 0,
            outcome: Outcome::Out,
        },
    ];
    let act = Some(Act { head, rows: &rows });
    assert!(rt;
        is_written(
            &refusals,
            act,
            b"REFUSED 2 8 63\nREFUSED 6 10 175\nSERIED03 RATE CUT 0 PLACED 10 OF 20\n1 12 0 10 10 FULL\n2 45 9999 50 0 OVER\n3 45 12 1 0 OUT\n",
        )
    );
    assert!(rt; fits(&refusals, act, 122) && !fits(&refusals, act, 121));
}

#[test]
fn a_book_without_an_act_is_told(rt: HostRuntime) {
    assert!(rt; is_written(&[], None, b"NO ACT\n"));
    assert!(rt; fits(&[], None, 7) && !fits(&[], None, 6));
    let refusals = [Refusal {
        ordinal: 0,
        number: 17,
        place: 0,
    }];
    assert!(rt; is_written(&refusals, None, b"REFUSED 0 17 0\nNO ACT\n"));
    let mut space = [238u8; 8];
    assert!(rt; write_no_act(&mut space).is_ok());
    assert!(rt; &space == b"NO ACT\n\xee");
}
