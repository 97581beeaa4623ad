//! For runs in which one request for memory is refused, which are tried outside the gate.

use crate::calls::{ALL_STEADY, Answer, run};
use estelle_cli::Status;
use test_texts::{COUNTER, COUNTER_TRACE};

// With ample memory the counter runs to its end. Where a request is refused the devices can't be made,
// or the answer says so and nothing is written to out, or it is as ever.
#[test]
fn counter_where_memory_may_be_refused(rt: HostRuntime) {
    let Ok(answer) = run(rt.alloc(), ALL_STEADY, COUNTER.as_bytes()) else {
        return;
    };
    assert!(rt; is_without_memory(&answer) || answer.is(Status::Done, COUNTER_TRACE, ""));
}

/// Whether memory was refused, and out was not called.
fn is_without_memory(answer: &Answer) -> bool {
    answer.is(Status::Memory, "", "estelle: no memory\n") && answer.out_calls == 0
}
