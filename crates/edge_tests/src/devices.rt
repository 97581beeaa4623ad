//! The devices alone: those in memory, and the adapters of std and of the machine's clock.

use outside::{
    AnyChooser, Chooser, Clock, Failed, FirstChooser, MachineClock, MemorySink, MemorySource,
    ScriptClock, SeedChooser, Sink, Source, StdSink, StdSource, SureSink, SureSource, VirtualClock,
    write_all,
};
use std::alloc::{AllocError, Global};
use std::cell::Cell;
use std::io::{self, Read, Write};
use std::test::Fail;
use std::time::{self, Duration};

/// All that a source gives in 20 calls at most, with `!` in place of a failed one.
fn drained<S: Source>(alloc: Global, source: &mut S) -> Result<Vec<u8>, AllocError> {
    let mut text = Vec::new(alloc);
    for _ in 0..20 {
        let mut buf = [0; 4];
        match source.read(&mut buf) {
            Ok(0) => break,
            Ok(count) => text.extend_from_slice(&buf[..count])?,
            Err(Failed) => text.push(b'!')?,
        }
    }
    Ok(text)
}

/// Whether a source gives this text.
fn gives<S: Source>(alloc: Global, source: &mut S, wanted: &str) -> Result<bool, AllocError> {
    let text = drained(alloc, source)?;
    Ok(text.as_slice() == wanted.as_bytes())
}

/// Whether a source in memory, by pieces and with a failing call, gives this text with so many faults.
fn gives_by_pieces(
    alloc: Global,
    piece: usize,
    failing: u64,
    wanted: &str,
    faults: u64,
) -> Result<bool, AllocError> {
    let mut source = MemorySource {
        bytes: b"hello world".to_vec(alloc)?,
        at: 0,
        piece: piece.max(1),
        failing: vec![in alloc; failing]?,
        calls: 0,
        faults: 0,
    };
    let given = gives(alloc, &mut source, wanted)?;
    Ok(given && source.faults == faults)
}

#[test]
fn sources_in_memory(rt: HostRuntime) -> Result<(), Fail> {
    for (piece, failing, wanted, faults) in [
        (9, 0, "hello world", 0),
        (3, 2, "hel!lo world", 1),
        (1, 12, "hello world!", 1),
        (4, 1, "!hello world", 1),
    ] {
        assert!(rt;
            gives_by_pieces(rt.alloc(), piece, failing, wanted, faults)?,
            "{wanted}"
        );
    }
    Ok(())
}

#[test]
fn a_sure_source(rt: HostRuntime) -> Result<(), Fail> {
    let mut sure = SureSource {
        bytes: b"hello".to_vec(rt.alloc())?,
        at: 0,
    };
    assert!(rt; gives(rt.alloc(), &mut sure, "hello")?);
    Ok(())
}

#[test]
fn sources_of_std(rt: HostRuntime) -> Result<(), Fail> {
    let mut source = StdSource::new(b"hello".as_slice());
    assert!(rt; gives(rt.alloc(), &mut source, "hello")?);
    let mut source = StdSource::new(FailsOnce {
        bytes: b"hello",
        failed: false,
    });
    assert!(rt; gives(rt.alloc(), &mut source, "!hello")?);
    Ok(())
}

/// Whether a sink in memory, by pieces, with a failing call and some room, holds this text with so many faults.
fn holds_by_pieces(
    alloc: Global,
    piece: usize,
    failing: u64,
    room: usize,
    wanted: &str,
    faults: u64,
) -> Result<bool, AllocError> {
    let mut sink = MemorySink {
        held: Vec::with_capacity(alloc, room)?,
        piece: piece.max(1),
        failing: vec![in alloc; failing]?,
        calls: 0,
        room,
        faults: 0,
    };
    let written = write_all(&mut sink, b"hello world");
    Ok(
        written.is_ok() == (faults == 0)
            && sink.held.as_slice() == wanted.as_bytes()
            && sink.faults == faults,
    )
}

#[test]
fn sinks_in_memory(rt: HostRuntime) -> Result<(), Fail> {
    for (piece, failing, room, wanted, faults) in [
        (9, 0, 11, "hello world", 0),
        (4, 3, 11, "hello wo", 1),
        (4, 0, 10, "hello wo", 1),
        (1, 0, 0, "", 1),
    ] {
        assert!(rt;
            holds_by_pieces(rt.alloc(), piece, failing, room, wanted, faults)?,
            "pieces of {piece}, room {room}"
        );
    }
    Ok(())
}

#[test]
fn a_sure_sink(rt: HostRuntime) {
    assert_eq!(rt; write_all(&mut SureSink, b"hello"), Ok(()));
    assert_eq!(rt; SureSink.write(b"hello"), Ok(5));
}

#[test]
fn sinks_of_std(rt: HostRuntime) {
    let mut held = Vec::new(rt.alloc());
    assert_eq!(rt; write_all(&mut StdSink::new(&mut held), b"hello"), Ok(()));
    assert_eq!(rt; held.as_slice(), b"hello".as_slice());
}

// A slice that is full takes nothing, without an error of its own.
#[test]
fn a_full_slice(rt: HostRuntime) {
    let mut full = [0; 3];
    assert_eq!(rt;
        write_all(&mut StdSink::new(full.as_mut_slice()), b"hello"),
        Err(Failed)
    );
    assert_eq!(rt; full.as_slice(), b"hel".as_slice());
}

/// A reader whose first call fails, and then the bytes.
#[derive(Drop)]
struct FailsOnce {
    bytes: &'static [u8],
    failed: bool,
}

impl Read for FailsOnce {
    fn read(&mut self, buf: &mut [u8]) -> io::Result<usize> {
        if !self.failed {
            self.failed = true;
            return Err(io::ErrorKind::Other.into());
        }
        self.bytes.read(buf)
    }
}

/// A runtime whose clock reads what is set, or fails.
#[derive(Drop)]
struct Readings {
    millis: Cell<Option<u64>>,
}

impl time::Clock for Readings {
    fn monotonic(&self) -> io::Result<Duration> {
        match self.millis.get() {
            Some(millis) => Ok(Duration::from_millis(millis)),
            None => Err(io::ErrorKind::Other.into()),
        }
    }

    fn since_1970(&self) -> io::Result<Duration> {
        self.monotonic()
    }
}

/// What a thread may be given.
fn sent<T: Send>(value: T) -> T {
    value
}

#[test]
fn clocks(rt: HostRuntime) {
    let mut clock = sent(MachineClock::new(rt));
    assert_eq!(rt; clock.now(1_000_000), Ok(1_000_000));
    let waited = clock.wait(2_000_000).unwrap_or(0);
    assert!(rt; waited == 2_000_000);
    let now = clock.now(0).unwrap_or(0);
    assert!(rt; now >= 2_000_000 && now < 2_000_060, "{now}");
    assert_eq!(rt; clock.wait(u64::MAX), Ok(u64::MAX));
    assert_eq!(rt; clock.faults(), 0);
}

#[test]
fn a_clock_that_is_read(rt: HostRuntime) {
    let readings = Readings {
        millis: Cell::new(None),
    };
    let mut clock = MachineClock::new(&readings);
    assert_eq!(rt; clock.now(7), Err(Failed));
    assert_eq!(rt; clock.wait(7), Err(Failed));
    assert_eq!(rt; clock.faults(), 2);

    // The first reading is at 5.9 seconds.
    for (millis, until, wanted) in [
        (5_900, 0, 0),
        (6_800, 0, 0),
        (6_900, 0, 1),
        (7_900, 10, 10),
        (8_900, 0, 11),
        (8_000, 0, 11),
        (9_900, 12, 12),
    ] {
        readings.millis.set(Some(millis));
        let moment = if until > 0 {
            clock.wait(until)
        } else {
            clock.now(0)
        };
        assert_eq!(rt; moment, Ok(wanted), "at {millis}");
    }
}

#[test]
fn a_virtual_clock(rt: HostRuntime) {
    let mut clock = VirtualClock { moment: 3 };
    assert_eq!(rt; clock.now(2), Ok(3));
    assert_eq!(rt; clock.now(4), Ok(4));
    assert_eq!(rt; clock.wait(5), Ok(5));
    assert_eq!(rt; clock.now(0), Ok(5));
    assert_eq!(rt; clock.faults(), 0);
}

#[test]
fn scripted_clocks(rt: HostRuntime) -> Result<(), Fail> {
    let mut clock = ScriptClock {
        moment: 3,
        failing: vec![in rt.alloc(); 2]?,
        calls: 0,
        faults: 0,
    };
    assert_eq!(rt; clock.now(5), Ok(5));
    assert_eq!(rt; clock.wait(9), Err(Failed));
    assert_eq!(rt; clock.moment, 3);
    assert_eq!(rt; clock.wait(9), Ok(9));
    assert_eq!(rt; clock.now(0), Ok(9));
    assert_eq!(rt; clock.faults(), 1);
    Ok(())
}

/// The picks of a chooser among so many candidates.
fn picks<C: Chooser>(chooser: &mut C) -> [u64; 8] {
    [
        chooser.pick(2),
        chooser.pick(3),
        chooser.pick(10),
        chooser.pick(100),
        chooser.pick(4_096),
        chooser.pick(4_294_967_296),
        chooser.pick(1),
        chooser.pick(9_223_372_036_854_775_808),
    ]
}

/// The words are those of PCG's reference code, from these states in the stream 0.
#[test]
fn choosers(rt: HostRuntime) {
    let of_0 = [
        1,
        0,
        3,
        37,
        451,
        3_522_865_942,
        0,
        5_260_386_020_410_523_648,
    ];
    let of_42 = [
        0,
        2,
        5,
        21,
        3_840,
        2_722_332_799,
        0,
        584_998_361_308_856_320,
    ];
    assert_eq!(rt; picks(&mut FirstChooser), [0; 8]);
    assert_eq!(rt; picks(&mut SeedChooser::new(0)), of_0);
    assert_eq!(rt; picks(&mut SeedChooser::new(42)), of_42);
    assert_eq!(rt; picks(&mut AnyChooser::Seeded(SeedChooser::new(42))), of_42);
    assert_eq!(rt; picks(&mut AnyChooser::First(FirstChooser)), [0; 8]);
}
