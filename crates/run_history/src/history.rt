//! The entries in order.

ghost use Rattle.std.specs.Prelude.{◌≡◌, ◌≤◌, ◌+◌, ◌++◌, [], ◌∷◌, IfOk, IfNone, IfSome, OnOk, OnErr, MatchOption};
ghost use Rattle.run_history.specs.Histories as spec;

use crate::copies::copy_event;
use crate::entry::{Entry, What};
use estelle_model::{Event, Run};
use estelle_tree::Items;
use std::alloc::{AllocError, Global};
use std::marker::Model;

/// The entries of a run in order, and for how many more there is memory.
#[derive(Drop)]
pub struct History {
    entries: Vec<Entry>,
    fires: u64,
}

impl Model for History {
    ghost use Rattle.std.specs.Prelude.{◌-◌, ◌≡◌, length};
    ghost use Rattle.std.specs.Vec.{vec_capacity};
    ghost use Rattle.run_history.specs.Histories as spec;

    ghost Value = { spec.History };

    ghost use Rattle.std.specs.Coded.{codes};
    ghost use Rattle.pascal_values.specs.contracts.value.Value as of_values;

    ghost coded = { Prim.hlevel (codes, of_values.the_row.coded) };

    ghost view = { λ h. record { entries = h.entries.items; spare = vec_capacity h.entries - length h.entries.items } };

    ghost invariant = { λ h. h.fires ≡ spec.fires h.entries.items };
}

impl History {
    /// No entry. It takes no memory.
    pub fn none(alloc: Global) -> History
        ensures { result.entries ≡ [] }
    {
        History {
            entries: Vec::new(alloc),
            fires: 0,
        }
    }

    /// Memory for so many more entries.
    pub fn reserve(&mut self, count: usize) -> Result<(), AllocError>
        ensures room { OnOk result (count ≤ self.new.spare) }
        ensures kept { self.new.entries ≡ self.old.entries }
        ensures no_less { self.old.spare ≤ self.new.spare }
        ensures unchanged { OnErr result (self.new ≡ self.old) }
    {
        self.entries.reserve(count)
    }

    /// One more entry. It takes no memory.
    #[tactic(auto, using(crate::proofs::Entries::fires_more, crate::proofs::Entries::fires_within))]
    pub fn add(&mut self, entry: Entry)
        requires { 1 ≤ self.old.spare }
        ensures added { self.new.entries ≡ self.old.entries ++ entry ∷ [] }
        ensures room { self.old.spare ≡ self.new.spare + 1 }
    {
        self.fires += firings_of(&entry);
        self.entries.push_reserved(entry);
    }

    /// Takes the last entry out; none exactly where there is no entry. It takes no memory.
    #[tactic(auto, using(crate::proofs::Entries::fires_more))]
    pub fn take_last(&mut self) -> Option<Entry>
        ensures last { MatchOption result (self.old.entries ≡ []) (λ entry. self.old.entries ≡ self.new.entries ++ entry ∷ []) }
        ensures none { IfNone result (self.new ≡ self.old) }
        ensures room { IfSome result (λ _. self.new.spare ≡ self.old.spare + 1) }
    {
        let entry = self.entries.pop()?;
        self.fires -= firings_of(&entry);
        Some(entry)
    }

    /// The entries in order. It takes no memory.
    pub fn items(&self) -> &[Entry]
        ensures { result.now ≡ self.now.entries }
    {
        &self.entries
    }
}

/// 1 of a firing, and 0 of all else.
fn firings_of(entry: &Entry) -> u64
    ensures { result ≡ spec.fires (entry.now ∷ []) }
{
    match &entry.what {
        What::Event(Event::Fire { .. }) => 1,
        _ => 0,
    }
}

/// How many of the events are firings, in constant time.
pub fn count_fires(history: &History) -> u64
    ensures { result ≡ spec.fires history.now.entries }
{
    history.fires
}

/// One more event, where the entry is one.
fn note(alloc: Global, events: &mut Items<Event>, entry: &Entry) -> Result<(), AllocError>
    ensures { OnOk result (events.new ≡ events.old ++ spec.project (entry.now ∷ [])) }
{
    match &entry.what {
        What::Event(event) => {
            events.push(copy_event(alloc, event)?)?;
            Ok(())
        }
        What::Take { .. } => Ok(()),
        What::Ended(_) => Ok(()),
    }
}

#[tactic(auto, using(crate::proofs::Entries::project_more))]
fn events_of(alloc: Global, entries: &[Entry]) -> Result<Items<Event>, AllocError>
    ensures { IfOk result (λ events. events ≡ spec.project entries.now) }
{
    let mut events = Items::new(alloc);
    for entry in entries {
        note(alloc, &mut events, entry)?;
    }
    Ok(events)
}

/// Moves the event of an entry behind the others, where the entry is one.
fn move_event(events: &mut Items<Event>, entry: Entry) -> Result<(), AllocError>
    ensures { OnOk result (events.new ≡ events.old ++ spec.project (entry ∷ [])) }
{
    match entry.what {
        What::Event(event) => events.push(event),
        What::Take { .. } => Ok(()),
        What::Ended(_) => Ok(()),
    }
}

/// The events in order, without the rest. It copies none of them; the memory is that of their list.
#[tactic(auto, using(crate::proofs::Entries::project_last))]
pub fn into_run(alloc: Global, history: History) -> Result<Run, AllocError>
    ensures { IfOk result (λ run. run.events ≡ spec.project history.entries) }
{
    let History { entries, fires: _ } = history;
    let mut events = Items::new(alloc);
    for entry in entries {
        move_event(&mut events, entry)?;
    }
    Ok(Run { events })
}

/// The events in order, as copies.
pub fn project(alloc: Global, history: &History) -> Result<Run, AllocError>
    ensures { IfOk result (λ run. run.events ≡ spec.project history.now.entries) }
{
    Ok(Run {
        events: events_of(alloc, history.items())?,
    })
}
