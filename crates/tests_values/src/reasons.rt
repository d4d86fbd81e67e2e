//! Reasons of refusals.
use bw_types::Reason;
use std::test::Fail;

#[test]
fn reasons_have_numbers(rt: HostRuntime) -> Result<(), Fail> {
    let reasons = [
        Reason::Used,
        Reason::Unknown,
        Reason::Fresh,
        Reason::Gone,
        Reason::Mass,
        Reason::Events,
    ];
    for (i, reason) in reasons.iter().enumerate() {
        assert_eq!(rt; usize::from(reason.number()), i + 1);
    }
    Ok(())
}
