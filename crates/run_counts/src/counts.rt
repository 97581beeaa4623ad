//! The counts.

ghost use Rattle.std.specs.Prelude.{◌≡◌, ◌<◌, ◌^◌, length, count_by};
ghost use Rattle.estelle_model.specs.Ends as ends;
ghost use Rattle.estelle_model_fates.specs.Fates as fates;
ghost use Rattle.run_counts.specs.Counts as spec;

use estelle_model::{Event, Out};
use estelle_tree::Sequence;

fn is_fire(event: &Event) -> bool
    ensures { result ≡ ends.is_fire event.now }
{
    matches!(event, Event::Fire { .. })
}

fn is_select(event: &Event) -> bool
    ensures { result ≡ spec.is_select event.now }
{
    matches!(event, Event::Select { .. })
}

/// How many firings there were.
pub fn fires(events: &[Event]) -> u64
    ensures { result ≡ ends.fires events.now }
{
    let mut count = 0;
    for event in events {
        if is_fire(event) {
            count += 1;
        }
    }
    count
}

/// How many selections there were.
pub fn selections(events: &[Event]) -> u64
    ensures { result ≡ spec.selections events.now }
{
    let mut count = 0;
    for event in events {
        if is_select(event) {
            count += 1;
        }
    }
    count
}

/// The outputs of an event.
fn outs_of(event: &Event) -> &[Out]
    ensures { result.now ≡ fates.outs_of event.now }
{
    match event {
        Event::Start { outs, .. } | Event::Fire { outs, .. } => outs.items(),
        Event::Select { .. } | Event::Fault { .. } => &[],
    }
}

/// How many outputs there were.
pub fn outputs(events: &[Event]) -> u64
    requires { length (fates.outputs events.now) < 2 ^ 64 }
    ensures { result ≡ length (fates.outputs events.now) }
{
    let mut count = 0;
    for event in events {
        count += outs_of(event).len() as u64;
    }
    count
}

fn lost_of(outs: &[Out]) -> u64
    ensures { result ≡ count_by (λ o. o.lost) outs.now }
{
    outs.iter().filter(|out| out.lost).count() as u64
}

/// How many of them were lost.
pub fn losses(events: &[Event]) -> u64
    requires { length (fates.outputs events.now) < 2 ^ 64 }
    ensures { result ≡ spec.losses events.now }
{
    let mut count = 0;
    for event in events {
        count += lost_of(outs_of(event));
    }
    count
}
