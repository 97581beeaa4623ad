//! The command that runs the ring and tells the counts of its run.

use crate::calls::{ALL_STEADY, Device, Devices, STEADY, call};
use estelle_cli::Status;
use std::alloc::{AllocError, Global};
use std::test::Fail;

/// The words, and the line.
const ROWS: [(&[&str], &str); 3] = [
    (
        &["trial", "--stations", "2", "--turns", "6"],
        "fires 6 selects 9 outputs 6 lost 0 end turns\n",
    ),
    // The start needs two units. Its fault is told, and changes no status.
    (
        &["trial", "--stations=2", "--budget=1"],
        "fires 0 selects 0 outputs 0 lost 0 end fault StepLimit\n",
    ),
    (
        &["trial", "--stations", "20", "--turns", "20000"],
        "fires 20000 selects 38847 outputs 20000 lost 0 end turns\n",
    ),
];

/// Whether the line is written, nothing is read, here of a source whose first call fails, and the clock is left as it was.
fn is_worked(alloc: Global, row: &(&[&str], &str)) -> Result<bool, AllocError> {
    let (words, line) = row;
    let source = Device { fails: 1, ..STEADY };
    let devices = Devices {
        source,
        ..ALL_STEADY
    };
    let answer = call(alloc, words, devices, b"x")?;
    Ok(answer.is(Status::Done, line, "") && answer.source_calls == 0 && answer.moment == 7)
}

#[test]
fn worked_trials(rt: HostRuntime) -> Result<(), Fail> {
    for row in &ROWS {
        assert!(rt; is_worked(rt.alloc(), row)?, "{}", row.1);
    }
    Ok(())
}

/// Whether the ring of so many stations begins a run.
fn begins(alloc: Global, stations: &str) -> Result<bool, AllocError> {
    let words = ["trial", "--turns=0", "--stations", stations];
    let answer = call(alloc, &words, ALL_STEADY, b"")?;
    Ok(answer.is(
        Status::Done,
        "fires 0 selects 0 outputs 0 lost 0 end turns\n",
        "",
    ))
}

/// How many stations, of one, two and three digits, with the least and the greatest number.
const SIZES: [&str; 10] = ["2", "3", "9", "10", "11", "99", "100", "101", "199", "200"];

// No clause says that rings keep all rules.
#[test]
fn rings_begin(rt: HostRuntime) -> Result<(), Fail> {
    for stations in &SIZES {
        assert!(rt; begins(rt.alloc(), stations)?, "{}", stations);
    }
    Ok(())
}
