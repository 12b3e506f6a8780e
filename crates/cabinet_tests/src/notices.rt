// Prints without an act because of the notice.
use crate::inputs::{notice, prints};
use std::test::Fail;

#[test]
fn an_empty_input_and_a_notice_alone_have_no_act(rt: HostRuntime) -> Result<(), Fail> {
    prints(&rt, rt.alloc(), &[], b"NO ACT\n")?;
    prints(
        &rt,
        rt.alloc(),
        &[notice(1, 1, 100, 10, 50, 2)],
        b"NO ACT\n",
    )
}

#[test]
fn a_notice_against_the_rules_is_refused(rt: HostRuntime) -> Result<(), Fail> {
    for message in [
        notice(3, 1, 100, 10, 50, 2),
        notice(1, 0, 100, 10, 50, 2),
        notice(1, 1, 0, 10, 50, 2),
        notice(2, 1, 1_000_000_001, 10, 50, 2),
        notice(1, 2, 100, 101, 50, 2),
        notice(2, 2, 100, 10, 0, 2),
        notice(1, 1, 100, 10, 50, 3),
    ] {
        prints(&rt, rt.alloc(), &[message], b"REFUSED 0 17 0\nNO ACT\n")?;
    }
    Ok(())
}
