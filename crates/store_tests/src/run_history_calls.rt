//! A run of one firing, which a worker took.

use estelle_model::{End, Event, Pair, Run};
use estelle_tree::{Items, Path, Sequence};
use run_history::{Entry, History, What, count_fires, into_run, project};
use std::alloc::{AllocError, Global};
use std::process::Abort;
use std::test::Fail;

fn add(history: &mut History, by: u32, what: What) -> Result<(), AllocError> {
    history.reserve(1)?;
    history.add(Entry { by, what });
    Ok(())
}

fn select(alloc: Global) -> Result<Event, AllocError> {
    let mut takes = Items::new(alloc);
    takes.push(Pair {
        path: Path::root(alloc),
        trans: 3,
    })?;
    Ok(Event::Select {
        system: Path::root(alloc),
        now: 40,
        takes,
    })
}

fn fire(alloc: Global) -> Result<Event, AllocError> {
    let mut drops = Items::new(alloc);
    drops.push(17)?;
    Ok(Event::Fire {
        path: Path::root(alloc),
        trans: 3,
        outs: Items::new(alloc),
        drops,
    })
}

fn told(alloc: Global) -> Result<History, AllocError> {
    let mut history = History::none(alloc);
    let take = What::Take {
        ticket: 1,
        path: Path::root(alloc),
        trans: 3,
    };
    add(&mut history, 0, What::Event(select(alloc)?))?;
    add(&mut history, 2, take)?;
    add(&mut history, 2, What::Event(fire(alloc)?))?;
    add(&mut history, 1, What::Ended(End::Turns))?;
    Ok(history)
}

/// The writer of an entry, what it is, and a number that it tells.
fn told_by(entry: &Entry) -> (u32, &'static str, u64) {
    match &entry.what {
        What::Event(event) => (entry.by, "event", number_of(event)),
        What::Take { ticket, .. } => (entry.by, "take", *ticket),
        What::Ended(_) => (entry.by, "end", 0),
    }
}

/// The moment of a selection, or the first number that a firing drops.
fn number_of(event: &Event) -> u64 {
    match event {
        Event::Select { now, .. } => *now,
        Event::Fire { drops, .. } => drops.as_slice().first().copied().unwrap_or(0),
        _ => 0,
    }
}

fn are_in_order(rt: &impl Abort, history: &History) {
    let wanted = [
        (0, "event", 40),
        (2, "take", 1),
        (2, "event", 17),
        (1, "end", 0),
    ];
    assert_eq!(rt; history.items().len(), 4);
    for (entry, wanted) in history.items().iter().zip(wanted) {
        assert_eq!(rt; told_by(entry), wanted);
    }
    assert_eq!(rt; count_fires(history), 1);
}

#[test]
fn entries_in_order(rt: HostRuntime) -> Result<(), Fail> {
    let history = told(rt.alloc())?;
    are_in_order(&rt, &history);
    Ok(())
}

fn are_events(rt: &impl Abort, run: &Run) {
    let numbers = [40, 17];
    assert_eq!(rt; run.events.items().len(), 2);
    for (event, number) in run.events.items().iter().zip(numbers) {
        assert_eq!(rt; number_of(event), number);
    }
}

#[test]
fn the_events_alone(rt: HostRuntime) -> Result<(), Fail> {
    let alloc = rt.alloc();
    let history = told(alloc)?;
    let run = project(alloc, &history)?;
    are_events(&rt, &run);
    Ok(())
}

#[test]
fn the_events_moved_out(rt: HostRuntime) -> Result<(), Fail> {
    let alloc = rt.alloc();
    let run = into_run(alloc, told(alloc)?)?;
    are_events(&rt, &run);
    Ok(())
}

/// The last entry, taken out: its writer, what it is, and a number that it tells.
fn taken(history: &mut History) -> Option<(u32, &'static str, u64)> {
    match history.take_last() {
        Some(entry) => Some(told_by(&entry)),
        None => None,
    }
}

fn takes_back(rt: &impl Abort, history: &mut History) {
    assert_eq!(rt; taken(history), Some((1, "end", 0)));
    assert_eq!(rt; count_fires(history), 1);
    assert_eq!(rt; taken(history), Some((2, "event", 17)));
    assert_eq!(rt; count_fires(history), 0);
    assert_eq!(rt; taken(history), Some((2, "take", 1)));
    assert_eq!(rt; taken(history), Some((0, "event", 40)));
    assert_eq!(rt; taken(history), None);
}

#[test]
fn entries_are_taken_back(rt: HostRuntime) -> Result<(), Fail> {
    let mut history = told(rt.alloc())?;
    takes_back(&rt, &mut history);
    Ok(())
}
