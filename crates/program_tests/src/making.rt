//! The command that makes the ring.

use crate::calls::{ALL_STEADY, Device, Devices, STEADY, call};
use estelle_cli::Status;
use std::test::Fail;
use test_texts::RING_OF_TWO;

// The command writes the ring's text. It does not call the source, here one whose first call fails.
#[test]
fn make_reads_nothing(rt: HostRuntime) -> Result<(), Fail> {
    let source = Device { fails: 1, ..STEADY };
    let devices = Devices {
        source,
        ..ALL_STEADY
    };
    let answer = call(rt.alloc(), &["make", "--stations=2"], devices, b"x")?;
    assert!(rt; answer.is(Status::Done, RING_OF_TWO, "") && answer.source_calls == 0);
    Ok(())
}

/// How the text of the ring of 200 stations ends.
const END_OF_MOST: &[u8] = b"connect s199 . right to s200 . left ;
connect s200 . right to s1 . left end ;
end .
";

#[test]
fn most_stations(rt: HostRuntime) -> Result<(), Fail> {
    let words = ["make", "--stations", "200"];
    let answer = call(rt.alloc(), &words, ALL_STEADY, b"")?;
    assert!(rt; answer.status == Status::Done && answer.out.ends_with(END_OF_MOST));
    Ok(())
}
