//! What a world keeps of a run, and what it notes.

ghost use Rattle.std.specs.Prelude.{◌≡◌, ◌≤◌, ◌+◌, ◌-◌, ◌∷◌, ◌++◌, [], Some, length};
ghost use Rattle.estelle_model.specs.declared.event.End.TheVariants.{Faulted};
ghost use Rattle.estelle_model.specs.declared.event.Event.TheVariants as events;
ghost use Rattle.situation.specs.declared.limits.Advanced.TheVariants as did;
ghost use Rattle.situation.specs.Runs.{noted, ending};

use crate::limits::Advanced;
use estelle_model::{End, Event, Pair};
use estelle_tree::{Items, Path};
use outside::Chooser;
use pascal_values::Fault;
use run_history::{Entry, History, Taken, What};
use situation_state::State;
use situation_steps::{System, Time};
use std::alloc::Global;
use std::collections::VecDeque;

/// A run so far.
#[derive(Drop)]
pub(crate) struct Execution<'a, H> {
    /// The situation that it has come to, with the pending firings that nobody has taken.
    pub(crate) state: State<'a>,
    /// The limit of firings.
    pub(crate) turns: u32,
    /// Whether some transition has a delay. Without one the clock is never asked.
    pub(crate) delays: bool,
    /// All systems, in path order.
    pub(crate) systems: Vec<System>,
    pub(crate) time: Time,
    pub(crate) history: History,
    /// How many firings were taken.
    pub(crate) tickets: u64,
    /// Those of them that are under way, by their tickets.
    pub(crate) flying: VecDeque<Taken>,
    /// Who notes what comes.
    pub(crate) writer: u32,
    pub(crate) end: Option<End>,
    pub(crate) chooser: H,
}

impl<H: Chooser + Drop> Execution<'_, H> {
    ghost use Rattle.situation_state.specs.At.{NothingNoted};
    ghost use Rattle.run_history.specs.Histories.{project};
    ghost use Rattle.situation.specs.Worlds.{IsOpenExecution};

    /// Notes an event.
    pub(crate) fn note(&mut self, event: Event)
        requires { 1 ≤ self.old.history.spare }
        ensures noted { self.new.history.entries ≡ self.old.history.entries ++ noted self.old.writer event ∷ [] }
        ensures spare { self.old.history.spare ≡ self.new.history.spare + 1 }
        ensures rest { self.new ≡ record self.old { history = self.new.history } }
    {
        self.history.add(Entry {
            by: self.writer,
            what: What::Event(event),
        });
    }

    /// Notes the end of the run.
    pub(crate) fn stop(&mut self, end: End)
        requires { 1 ≤ self.old.history.spare }
        ensures noted { self.new.history.entries ≡ self.old.history.entries ++ ending self.old.writer end ∷ [] }
        ensures rest { self.new ≡ record self.old { history = self.new.history; end = Some end } }
    {
        self.history.add(Entry {
            by: self.writer,
            what: What::Ended(end),
        });
        self.end = Some(end);
    }

    /// Notes a fault, which ends the run.
    pub(crate) fn fail(&mut self, path: Path, trans: u32, kind: Fault)
        requires { 2 ≤ self.old.history.spare }
        ensures noted { self.new.history.entries ≡ (self.old.history.entries ++ noted self.old.writer (events.Fault path trans kind) ∷ []) ++ ending self.old.writer (Faulted kind) ∷ [] }
        ensures rest { self.new ≡ record self.old { history = self.new.history; end = Some (Faulted kind) } }
    {
        self.note(Event::Fault { path, trans, kind });
        self.stop(End::Faulted(kind));
    }

    /// The run ends, by the limit of firings, in a deadlock, or by the clock.
    pub(crate) fn ended(&mut self, end: End) -> Advanced
        requires { 1 ≤ self.old.history.spare }
        ensures noted { self.new.history.entries ≡ self.old.history.entries ++ ending self.old.writer end ∷ [] }
        ensures rest { self.new ≡ record self.old { history = self.new.history; end = Some end } }
        ensures says { result ≡ did.Ended end }
    {
        self.stop(end);
        Advanced::Ended(end)
    }

    /// Notes a firing that was put.
    pub(crate) fn note_firing(&mut self, alloc: Global, path: Path, trans: u32)
        requires { 1 ≤ self.old.history.spare }
        ensures noted { self.new.history.entries ≡ self.old.history.entries ++ noted self.old.writer (events.Fire path trans self.old.state.notes.outs.items self.old.state.notes.drops.items) ∷ [] }
        ensures spare { self.old.history.spare ≡ self.new.history.spare + 1 }
        ensures empty { NothingNoted self.new.state.notes }
        ensures told { self.new.state ≡ record self.old.state { notes = self.new.state.notes } }
        ensures rest { self.new ≡ record self.old { history = self.new.history; state = self.new.state } }
    {
        let (outs, drops) = self.state.take_told(alloc);
        self.note(Event::Fire {
            path,
            trans,
            outs,
            drops,
        });
    }

    /// Notes a selection.
    pub(crate) fn note_selection(&mut self, system: Path, now: u64, takes: Items<Pair>)
        requires { 1 ≤ self.old.history.spare }
        ensures noted { self.new.history.entries ≡ self.old.history.entries ++ noted self.old.writer (events.Select system now takes) ∷ [] }
        ensures rest { self.new ≡ record self.old { history = self.new.history } }
    {
        self.note(Event::Select { system, now, takes });
    }

    /// How many events there were.
    pub(crate) fn events(&self) -> u64
        requires { IsOpenExecution self.now }
        ensures { result ≡ length (project self.now.history.entries) }
    {
        self.history.items().len() as u64 - self.tickets
    }
}
