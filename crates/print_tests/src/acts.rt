// The head and the rows of an act.
use crate::written;
use book::outcome::Outcome;
use print::head::{Cut, Head};
use print::row::ActRow;
use print::writer::write_act;

// Whether the act is written as the bytes, and the rest of the space left.
fn is_written(head: &Head<'_>, rows: &[ActRow], bytes: &[u8]) -> bool {
    written::is_written(|space| write_act(head, rows, space), bytes)
}

#[test]
fn an_act_has_a_head_and_a_line_for_each_row(rt: HostRuntime) {
    let head = Head {
        series: *b"SERIED03",
        word: b"RATE",
        award: Some(Cut {
            cut: 640,
            placed: 100,
            offer: 100,
        }),
    };
    let rows = [
        ActRow {
            number: 1,
            house: 12,
            quote: 630,
            lots: 76,
            allotted: 76,
            outcome: Outcome::Full(76),
        },
        ActRow {
            number: 2,
            house: 45,
            quote: 640,
            lots: 50,
            allotted: 24,
            outcome: Outcome::Part(24),
        },
    ];
    assert!(rt;
        is_written(
            &head,
            &rows,
            b"SERIED03 RATE CUT 640 PLACED 100 OF 100\n1 12 630 76 76 FULL\n2 45 640 50 24 PART\n",
        )
    );
}

#[test]
fn a_void_act_has_neither_cut_off_nor_lots(rt: HostRuntime) {
    let head = Head {
        series: *b"SERIED03",
        word: b"PRICE",
        award: None,
    };
    let rows = [ActRow {
        number: 1,
        house: 0,
        quote: -7,
        lots: 5,
        allotted: 0,
        outcome: Outcome::Void,
    }];
    assert!(rt; is_written(&head, &rows, b"SERIED03 PRICE VOID\n1 0 -7 5 0 VOID\n"));
}

#[test]
fn the_largest_numbers_and_a_negative_cut_off_are_written_in_full(rt: HostRuntime) {
    let head = Head {
        series: *b"SERIED03",
        word: b"DISCOUNT",
        award: Some(Cut {
            cut: -2_147_483_648,
            placed: 18_446_744_073_709_551_615,
            offer: 4_294_967_295,
        }),
    };
    let rows = [ActRow {
        number: 4_294_967_295,
        house: 4_294_967_295,
        quote: -2_147_483_648,
        lots: 4_294_967_295,
        allotted: 4_294_967_295,
        outcome: Outcome::Worse,
    }];
    assert!(rt;
        is_written(
            &head,
            &rows,
            b"SERIED03 DISCOUNT CUT -2147483648 PLACED 18446744073709551615 OF 4294967295\n4294967295 4294967295 -2147483648 4294967295 4294967295 WORSE\n",
        )
    );
}
