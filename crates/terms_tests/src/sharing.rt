// Sharing rules on divisions and refusals.
use terms::arrival::InArrivalOrder;
use terms::pro_rata::ProRata;
use terms::sharing::SharingRule;

// What a rule answers, with the number of its refusal.
fn answer<R: SharingRule>(balance: u32, demands: &[u32], shares: &mut [u32]) -> Result<(), u8> {
    R::share(balance, demands, shares).map_err(|fault| fault.number())
}

// The table of five places that held 7s, after a rule has shared.
fn shares<R: SharingRule>(balance: u32, demands: &[u32]) -> [u32; 5] {
    let mut table = [7; 5];
    let _ = R::share(balance, demands, &mut table);
    table
}

#[test]
fn the_worked_divisions_come_out(rt: HostRuntime) {
    assert_eq!(rt; shares::<ProRata>(60, &[50, 30, 45]), [24, 15, 21, 7, 7]);
    assert_eq!(rt;
        shares::<InArrivalOrder>(60, &[50, 30, 45]),
        [50, 10, 0, 7, 7]
    );
    assert_eq!(rt; shares::<ProRata>(2, &[1, 1, 1]), [1, 1, 0, 7, 7]);
    assert_eq!(rt; shares::<ProRata>(17, &[2, 9, 9]), [2, 8, 7, 7, 7]);
}

#[test]
fn no_demands_and_no_balance_are_divided_too(rt: HostRuntime) {
    assert_eq!(rt; shares::<ProRata>(0, &[]), [7; 5]);
    assert_eq!(rt; shares::<InArrivalOrder>(0, &[]), [7; 5]);
    assert_eq!(rt; shares::<ProRata>(0, &[3, 4]), [0, 0, 7, 7, 7]);
    assert_eq!(rt; shares::<InArrivalOrder>(0, &[3, 4]), [0, 0, 7, 7, 7]);
}

#[test]
fn the_largest_demands_and_balance_are_divided(rt: HostRuntime) {
    let most = 1_000_000_000;
    assert_eq!(rt;
        shares::<ProRata>(most, &[most, most]),
        [most / 2, most / 2, 7, 7, 7]
    );
    assert_eq!(rt;
        shares::<ProRata>(most, &[most, most, most]),
        [333_333_334, 333_333_333, 333_333_333, 7, 7]
    );
}

// The answer with a table of at most two places that held 7s, and the table after it.
fn answer_with<R: SharingRule>(
    balance: u32,
    demands: &[u32],
    places: usize,
) -> (Result<(), u8>, [u32; 2]) {
    let mut table = [7; 2];
    let told = answer::<R>(balance, demands, &mut table[0..places.min(2)]);
    (told, table)
}

#[test]
fn a_refusal_is_the_smallest_and_leaves_the_table(rt: HostRuntime) {
    let most = 1_000_000_000;
    let many = [1; 4_097];
    for (balance, demands, places, number) in [
        (1, &[0u32, 5] as &[u32], 2usize, 10u8),
        (1, &[most + 1], 1, 10),
        (8, &[3, 4], 2, 10),
        (most + 1, &[most, most], 2, 10),
        (1, &[], 0, 10),
        (5, &[3, 4], 1, 16),
        (8, &[3, 4], 1, 10),
        (1, &many, 2, 16),
    ] {
        assert_eq!(rt;
            answer_with::<ProRata>(balance, demands, places),
            (Err(number), [7; 2])
        );
        assert_eq!(rt;
            answer_with::<InArrivalOrder>(balance, demands, places),
            (Err(number), [7; 2])
        );
    }
}

#[test]
fn more_than_4_096_demands_are_refused(rt: HostRuntime) {
    let many = [1; 4_097];
    let mut table = [7; 4_097];
    assert_eq!(rt; answer::<ProRata>(1, &many, &mut table), Err(18));
    assert_eq!(rt; answer::<InArrivalOrder>(1, &many, &mut table), Err(18));
    assert_eq!(rt;
        answer::<InArrivalOrder>(4_096, &many[0..4_096], &mut table),
        Ok(())
    );
    assert_eq!(rt; table[4_095], 1);
    assert_eq!(rt; table[4_096], 7);
}
