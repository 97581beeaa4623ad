//! How the lines of a trace make its events and its end.

ghost use Rattle.trace_text.specs.Stages as spec;
ghost use Rattle.trace_text.specs.Stages.{Answers};
ghost use Rattle.std.specs.Prelude.{◌≡◌};

use crate::error::Missing;
use crate::line::Line;
use crate::writing::kind_text;
use estelle_model::{End, Event, Out};
use estelle_tree::Items;
use pascal_values::Fault;
use std::alloc::Global;

/// How far a trace is read.
#[derive(Drop)]
pub enum Stage {
    Nothing,
    /// The first line.
    Headed,
    /// Events; outputs and drops of the last one may still come.
    Events { done: Items<Event>, last: Event },
    /// All of it.
    Ended { events: Items<Event>, end: End },
}

// ---- outputs and drops of the last event

fn more_outs(outs: Items<Out>, drops: &[u64], out: Out) -> Result<Items<Out>, Missing>
    ensures { Answers result (spec.more_outs outs drops.now out) }
{
    match drops {
        [] => {
            let mut outs = outs;
            outs.push(out)?;
            Ok(outs)
        }
        [_, ..] => Err(Missing::Absent),
    }
}

fn with_out(last: Event, out: Out) -> Result<Event, Missing>
    ensures { Answers result (spec.with_out last out) }
{
    match last {
        Event::Start { outs, drops } => match more_outs(outs, drops.as_slice(), out) {
            Err(missing) => Err(missing),
            Ok(outs) => Ok(Event::Start { outs, drops }),
        },
        Event::Fire {
            path,
            trans,
            outs,
            drops,
        } => match more_outs(outs, drops.as_slice(), out) {
            Err(missing) => Err(missing),
            Ok(outs) => Ok(Event::Fire {
                path,
                trans,
                outs,
                drops,
            }),
        },
        Event::Select { .. } | Event::Fault { .. } => Err(Missing::Absent),
    }
}

fn rise_to(drops: &[u64], number: u64) -> bool
    ensures { result ≡ spec.rise_to drops.now number }
{
    match drops {
        [] => true,
        [.., last] => *last < number,
    }
}

fn more_drops(drops: Items<u64>, number: u64) -> Result<Items<u64>, Missing>
    ensures { Answers result (spec.more_drops drops number) }
{
    let mut drops = drops;
    if !rise_to(drops.as_slice(), number) {
        return Err(Missing::Absent);
    }
    drops.push(number)?;
    Ok(drops)
}

fn with_drop(last: Event, number: u64) -> Result<Event, Missing>
    ensures { Answers result (spec.with_drop last number) }
{
    match last {
        Event::Start { outs, drops } => match more_drops(drops, number) {
            Err(missing) => Err(missing),
            Ok(drops) => Ok(Event::Start { outs, drops }),
        },
        Event::Fire {
            path,
            trans,
            outs,
            drops,
        } => match more_drops(drops, number) {
            Err(missing) => Err(missing),
            Ok(drops) => Ok(Event::Fire {
                path,
                trans,
                outs,
                drops,
            }),
        },
        Event::Select { .. } | Event::Fault { .. } => Err(Missing::Absent),
    }
}

// ---- which event comes where

fn comes_first(event: &Event) -> bool
    ensures { result ≡ spec.comes_first event.now }
{
    match event {
        Event::Start { .. } => true,
        Event::Fault { path, trans, .. } => is_root(path.items()) && *trans == 0,
        Event::Select { .. } | Event::Fire { .. } => false,
    }
}

fn is_root(path: &[u64]) -> bool
    ensures { result ≡ spec.is_root path.now }
{
    match path {
        [] => true,
        [_, ..] => false,
    }
}

fn comes_later(event: &Event) -> bool
    ensures { result ≡ spec.comes_later event.now }
{
    match event {
        Event::Start { .. } => false,
        Event::Fault { trans, .. } => 1 <= *trans,
        Event::Select { .. } | Event::Fire { .. } => true,
    }
}

fn is_fault(event: &Event) -> bool
    ensures { result ≡ spec.is_fault event.now }
{
    matches!(event, Event::Fault { .. })
}

fn same_kind(a: Fault, b: Fault) -> bool
    ensures { result ≡ spec.same_kind a b }
{
    kind_text(a) == kind_text(b)
}

fn ends_behind(last: &Event, end: End) -> bool
    ensures { result ≡ spec.ends_behind last.now end }
{
    match last {
        Event::Fault { kind, .. } => match end {
            End::Faulted(named) => same_kind(*kind, named),
            End::Dead | End::Turns | End::Clock => false,
        },
        Event::Start { .. } | Event::Select { .. } | Event::Fire { .. } => {
            !matches!(end, End::Faulted(_))
        }
    }
}

// ---- stages

fn begun(alloc: Global, event: Event) -> Result<Stage, Missing>
    ensures { Answers result (spec.begun event) }
{
    if comes_first(&event) {
        Ok(Stage::Events {
            done: Items::new(alloc),
            last: event,
        })
    } else {
        Err(Missing::Absent)
    }
}

fn followed(done: Items<Event>, last: Event, event: Event) -> Result<Stage, Missing>
    ensures { Answers result (spec.followed done last event) }
{
    let mut done = done;
    if is_fault(&last) {
        return Err(Missing::Absent);
    }
    if !comes_later(&event) {
        return Err(Missing::Absent);
    }
    done.push(last)?;
    Ok(Stage::Events { done, last: event })
}

fn ended(done: Items<Event>, last: Event, end: End) -> Result<Stage, Missing>
    ensures { Answers result (spec.ended done last end) }
{
    let mut done = done;
    if !ends_behind(&last, end) {
        return Err(Missing::Absent);
    }
    done.push(last)?;
    Ok(Stage::Ended { events: done, end })
}

fn after_event(done: Items<Event>, last: Event, line: Line) -> Result<Stage, Missing>
    ensures { Answers result (spec.after_event done last line) }
{
    match line {
        Line::Head => Err(Missing::Absent),
        Line::Event(event) => followed(done, last, event),
        Line::Out(out) => match with_out(last, out) {
            Err(missing) => Err(missing),
            Ok(last) => Ok(Stage::Events { done, last }),
        },
        Line::Drop(number) => match with_drop(last, number) {
            Err(missing) => Err(missing),
            Ok(last) => Ok(Stage::Events { done, last }),
        },
        Line::End(end) => ended(done, last, end),
    }
}

/// The stage behind one more line, if that line may come.
pub fn step(alloc: Global, stage: Stage, line: Line) -> Result<Stage, Missing>
    ensures { Answers result (spec.step stage line) }
{
    match stage {
        Stage::Nothing => match line {
            Line::Head => Ok(Stage::Headed),
            _ => Err(Missing::Absent),
        },
        Stage::Headed => match line {
            Line::Event(event) => begun(alloc, event),
            _ => Err(Missing::Absent),
        },
        Stage::Events { done, last } => after_event(done, last, line),
        Stage::Ended { .. } => Err(Missing::Absent),
    }
}
