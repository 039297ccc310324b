//! Each law is called once.
use log_model::*;

#[test]
fn each_law_is_called(_rt: HostRuntime) {
    again_law();
    call_law();
    distinct_law();
    document_law();
    entries_law();
    fits_law();
    front_law();
    marks_law();
    members_law();
    numbers_law();
    once_law();
    placed_law();
    refusal_law();
    chains_law();
    seen_law();
    tells_law();
    told_law();
}
