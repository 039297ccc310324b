//! How stages and the log agree: each law is called once.
use agreement::*;

#[test]
fn each_law_is_called(_rt: HostRuntime) {
    aligned_law();
    drained_law();
    lane_law();
    outstanding_law();
    run_law();
    stages_law();
    take_law();
    waiting_law();
}
