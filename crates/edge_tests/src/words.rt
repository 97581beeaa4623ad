//! What words mean: each command, its options, their defaults and ranges, and words that have no meaning.

use estelle_words::{Command, Settings, settings};
use std::alloc::{AllocError, Global};
use std::test::Fail;

/// The words; the command that they mean, and its turns, seed, workers, budget and stations.
type Row = (
    &'static [&'static str],
    Command,
    u32,
    Option<u64>,
    u32,
    u32,
    u32,
);

const MEANT: [Row; 18] = [
    (&["run"], Command::Run, 10_000, None, 0, 1_000_000, 2),
    (&["check"], Command::Check, 10_000, None, 0, 1_000_000, 2),
    (&["show"], Command::Show, 10_000, None, 0, 1_000_000, 2),
    (&["code"], Command::Code, 10_000, None, 0, 1_000_000, 2),
    (&["replay"], Command::Replay, 10_000, None, 0, 1_000_000, 2),
    // Both shapes, in any order, at the ends of the ranges.
    (
        &[
            "run",
            "--turns=5",
            "--seed",
            "7",
            "--workers=64",
            "--budget",
            "1",
        ],
        Command::Run,
        5,
        Some(7),
        64,
        1,
        2,
    ),
    (
        &[
            "run",
            "--budget=100000000",
            "--workers",
            "0",
            "--seed=18446744073709551615",
            "--turns",
            "1000000",
        ],
        Command::Run,
        1_000_000,
        Some(18_446_744_073_709_551_615),
        0,
        100_000_000,
        2,
    ),
    (
        &["run", "--turns=0", "--seed=0"],
        Command::Run,
        0,
        Some(0),
        0,
        1_000_000,
        2,
    ),
    (
        &["run", "--workers", "1"],
        Command::Run,
        10_000,
        None,
        1,
        1_000_000,
        2,
    ),
    (
        &["replay", "--budget", "12"],
        Command::Replay,
        10_000,
        None,
        0,
        12,
        2,
    ),
    (
        &["make", "--stations=2"],
        Command::Make,
        10_000,
        None,
        0,
        1_000_000,
        2,
    ),
    (
        &["make", "--stations", "200"],
        Command::Make,
        10_000,
        None,
        0,
        1_000_000,
        200,
    ),
    (
        &["trial", "--stations=3"],
        Command::Trial,
        10_000,
        None,
        0,
        1_000_000,
        3,
    ),
    (
        &[
            "trial",
            "--seed=3",
            "--turns",
            "4",
            "--stations",
            "5",
            "--budget=6",
        ],
        Command::Trial,
        4,
        Some(3),
        0,
        6,
        5,
    ),
    // Leading zeros, up to 20 digits in all.
    (
        &["run", "--turns=007"],
        Command::Run,
        7,
        None,
        0,
        1_000_000,
        2,
    ),
    (
        &["run", "--turns", "00000000000000000007"],
        Command::Run,
        7,
        None,
        0,
        1_000_000,
        2,
    ),
    (
        &["run", "--seed=00000000000000000000"],
        Command::Run,
        10_000,
        Some(0),
        0,
        1_000_000,
        2,
    ),
    (
        &["make", "--stations", "00000000000000000012"],
        Command::Make,
        10_000,
        None,
        0,
        1_000_000,
        12,
    ),
];

const MEANINGLESS: [&[&str]; 67] = [
    &[],
    &[""],
    // Not the command's whole name.
    &["Run"],
    &["run "],
    &["ru"],
    &["runs"],
    &["cod"],
    &["--run"],
    // Help words.
    &["help"],
    &["--help"],
    &["-h"],
    &["--version"],
    &["run", "help"],
    &["run", "--help"],
    &["run", "-h"],
    &["run", "--version"],
    &["run", "-V"],
    &["make", "--stations=2", "--help"],
    // Words that are no options.
    &["run", "run"],
    &["run", ""],
    &["run", "-"],
    &["run", "--"],
    &["run", "--turns=1", "--"],
    &["run", "--", "--turns=1"],
    &["--", "run"],
    &["--turns=1", "run"],
    &["run", "--turns=1", "5"],
    &["run", "turns=5"],
    &["run", "-turns=5"],
    // Not the option's whole name.
    &["run", "--tur=5"],
    &["run", "--turn", "5"],
    &["run", "--Turns=5"],
    &["run", "--turns5"],
    &["run", "--=5"],
    &["run", "--verbose=1"],
    // Options of other commands.
    &["run", "--stations=5"],
    &["check", "--budget=5"],
    &["show", "--turns=1"],
    &["replay", "--turns=1"],
    &["make", "--stations=5", "--seed=1"],
    &["trial", "--stations=5", "--workers=1"],
    // An option twice, and a required one that is not there.
    &["run", "--turns=1", "--turns=1"],
    &["run", "--turns", "1", "--seed=1", "--turns=2"],
    &["make"],
    &["trial", "--turns=1"],
    // No value, or one that begins with `-`.
    &["run", "--turns"],
    &["run", "--turns="],
    &["run", "--turns", ""],
    &["run", "--turns", "--seed=1"],
    &["run", "--turns", "-1"],
    &["run", "--turns=-1"],
    &["run", "--turns", "--"],
    // Not 1 to 20 digits.
    &["run", "--turns=+1"],
    &["run", "--turns=1_000"],
    &["run", "--turns= 1"],
    &["run", "--turns=0x1"],
    &["run", "--turns=1=2"],
    &["run", "--turns=000000000000000000007"],
    &["run", "--seed", "000000000000000000000"],
    // Beyond the range.
    &["run", "--turns=1000001"],
    &["run", "--turns=99999999999999999999"],
    &["run", "--seed=18446744073709551616"],
    &["run", "--workers=65"],
    &["run", "--budget=0"],
    &["run", "--budget=100000001"],
    &["make", "--stations=1"],
    &["make", "--stations=201"],
];

fn is_meant(alloc: Global, row: &Row) -> Result<bool, AllocError> {
    let (words, command, turns, seed, workers, budget, stations) = row;
    let wanted = Settings {
        command: *command,
        turns: *turns,
        seed: *seed,
        workers: *workers,
        budget: *budget,
        stations: *stations,
    };
    Ok(settings(alloc, words)? == Some(wanted))
}

#[test]
fn meant(rt: HostRuntime) -> Result<(), Fail> {
    for row in &MEANT {
        assert!(rt; is_meant(rt.alloc(), row)?, "{:?}", row.0);
    }
    Ok(())
}

#[test]
fn meaningless(rt: HostRuntime) -> Result<(), Fail> {
    for words in &MEANINGLESS {
        assert!(rt; settings(rt.alloc(), words)?.is_none(), "{words:?}");
    }
    Ok(())
}
