//! The laws of sessions, called.
use session::{denied_law, later_law, truth_law};
use std::test::Fail;

#[test]
fn each_law_is_called(_rt: HostRuntime) -> Result<(), Fail> {
    later_law();
    truth_law();
    denied_law();
    Ok(())
}
