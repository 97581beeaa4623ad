//! The states of `from` clauses, shared by all that name them.

ghost use Rattle.std.specs.Prelude.{◌≡◌, ◌++◌, ◌∷◌, [], nat_eq, IfOk, OnOk};
ghost use Rattle.std.specs.List.{list_any, flat_map};
ghost use Rattle.indexmap.specs.IndexSet.{insert_all};

use crate::shared::Shared;
use estelle_tree::{Items, Sequence};
use indexmap::IndexSet;
use std::alloc::{AllocError, Global};
use std::marker::Model;
use std::sync::Arc;

/// The numbers of states in order, and as a set.
pub struct Numbers {
    listed: Items<u32>,
    set: IndexSet<u32>,
}

impl Drop for Numbers {
    fn drop(self) {
        let Numbers { listed: _, set: _ } = self;
    }
}

impl Model for Numbers {
    ghost use Rattle.std.specs.Prelude.{◌≡◌, ℕ, nat_eq, List, []};
    ghost use Rattle.indexmap.specs.IndexSet.{insert_all};

    ghost Value = { List ℕ };

    ghost view = { λ n. n.listed };

    ghost invariant = { λ n. n.set.keys ≡ insert_all nat_eq [] n.listed };
}

fn set_of(alloc: Global, states: &[u32]) -> Result<IndexSet<u32>, AllocError>
    ensures { IfOk result (λ set. set.keys ≡ insert_all nat_eq [] states.now) }
{
    let mut set = IndexSet::new(alloc);
    for state in states {
        set.insert(*state)?;
    }
    Ok(set)
}

impl Numbers {
    fn of(alloc: Global, states: Items<u32>) -> Result<Numbers, AllocError>
        ensures { IfOk result (λ numbers. numbers ≡ states) }
    {
        let set = set_of(alloc, states.items())?;
        Ok(Numbers {
            listed: states,
            set,
        })
    }

    fn has(&self, state: u32) -> bool
        ensures { result ≡ list_any (nat_eq state) self.now }
    {
        self.set.contains(&state)
    }

    fn items(&self) -> &[u32]
        ensures { result.now ≡ self.now }
    {
        self.listed.items()
    }
}

/// States by their numbers. All that have them share one list and one set.
pub struct StateSet {
    numbers: Arc<Numbers>,
}

impl Drop for StateSet {
    fn drop(self) {
        let StateSet { numbers: _ } = self;
    }
}

impl Model for StateSet {
    ghost use Rattle.std.specs.Prelude.{ℕ, List};

    ghost Value = { List ℕ };

    ghost view = { λ s. s.numbers.value };
}

impl StateSet {
    pub fn of(alloc: Global, states: Items<u32>) -> Result<StateSet, AllocError>
        ensures { IfOk result (λ set. set ≡ states) }
    {
        match Arc::new(alloc, Numbers::of(alloc, states)?) {
            Ok(numbers) => Ok(StateSet { numbers }),
            Err(_) => Err(AllocError),
        }
    }

    /// One more owner of them, which takes no memory; it fails where the count of owners is full.
    pub fn share(&self) -> Result<StateSet, AllocError>
        ensures { IfOk result (λ shared. shared ≡ self.now) }
    {
        Ok(StateSet {
            numbers: self.numbers.clone()?,
        })
    }

    fn has(&self, state: u32) -> bool
        ensures { result ≡ list_any (nat_eq state) self.now }
    {
        let numbers: &Numbers = self.numbers.as_ref();
        numbers.has(state)
    }

    fn items(&self) -> &[u32]
        ensures { result.now ≡ self.now }
    {
        let numbers: &Numbers = self.numbers.as_ref();
        numbers.items()
    }
}

fn is_in_one(sets: &[StateSet], state: u32) -> bool
    ensures { result ≡ list_any (λ s. list_any (nat_eq state) s) sets.now }
{
    for set in sets {
        if set.has(state) {
            return true;
        }
    }
    false
}

fn push_states(out: &mut Items<u32>, states: &[u32]) -> Result<(), AllocError>
    ensures { OnOk result (out.new ≡ out.old ++ states.now) }
{
    for state in states {
        out.push(*state)?;
    }
    Ok(())
}

/// All of them in one list.
fn joined(alloc: Global, sets: &[StateSet]) -> Result<Items<u32>, AllocError>
    ensures { IfOk result (λ states. states ≡ flat_map (λ s. s) sets.now) }
{
    let mut states = Items::new(alloc);
    for set in sets {
        push_states(&mut states, set.items())?;
    }
    Ok(states)
}

/// The states of a `from` clause: each state set that it names, and those between them.
pub struct States {
    sets: Shared<StateSet>,
}

impl Drop for States {
    fn drop(self) {
        let States { sets: _ } = self;
    }
}

impl Model for States {
    ghost use Rattle.std.specs.Prelude.{ℕ, List};
    ghost use Rattle.std.specs.List.{flat_map};

    ghost Value = { List ℕ };

    ghost view = { λ s. flat_map (λ set. set) s.sets };
}

impl States {
    pub fn share(&self) -> Result<States, AllocError>
        ensures { IfOk result (λ shared. shared ≡ self.now) }
    {
        Ok(States {
            sets: self.sets.share()?,
        })
    }

    /// Whether a state is one of them. The list is not walked.
    pub fn has(&self, state: u32) -> bool
        ensures { result ≡ list_any (nat_eq state) self.now }
    {
        is_in_one(self.sets.items(), state)
    }

    /// As a list of its own.
    pub fn listed(&self, alloc: Global) -> Result<Items<u32>, AllocError>
        ensures { IfOk result (λ states. states ≡ self.now) }
    {
        joined(alloc, self.sets.items())
    }
}

/// The states of the names of a `from` clause so far.
#[derive(Drop)]
pub struct Gathered {
    sets: Items<StateSet>,
    /// Those behind the last set.
    own: Items<u32>,
}

impl Model for Gathered {
    ghost use Rattle.std.specs.Prelude.{ℕ, List, ◌++◌};
    ghost use Rattle.std.specs.List.{flat_map};

    ghost Value = { List ℕ };

    ghost view = { λ g. flat_map (λ set. set) g.sets ++ g.own };
}

fn push_own(alloc: Global, sets: &mut Items<StateSet>, own: Items<u32>) -> Result<(), AllocError>
    ensures { OnOk result (flat_map (λ s. s) sets.new ≡ flat_map (λ s. s) sets.old ++ own) }
{
    if own.is_empty() {
        return Ok(());
    }
    sets.push(StateSet::of(alloc, own)?)
}

impl Gathered {
    pub fn nothing(alloc: Global) -> Gathered
        ensures { result ≡ [] }
    {
        Gathered {
            sets: Items::new(alloc),
            own: Items::new(alloc),
        }
    }

    pub fn push(&mut self, state: u32) -> Result<(), AllocError>
        ensures { OnOk result (self.new ≡ self.old ++ state ∷ []) }
    {
        self.own.push(state)
    }

    /// With a state set behind them.
    pub fn with(self, alloc: Global, set: StateSet) -> Result<Gathered, AllocError>
        ensures { IfOk result (λ gathered. gathered ≡ self ++ set) }
    {
        let Gathered { mut sets, own } = self;
        push_own(alloc, &mut sets, own)?;
        sets.push(set)?;
        Ok(Gathered {
            sets,
            own: Items::new(alloc),
        })
    }

    pub fn shared(self, alloc: Global) -> Result<States, AllocError>
        ensures { IfOk result (λ states. states ≡ self) }
    {
        let Gathered { mut sets, own } = self;
        push_own(alloc, &mut sets, own)?;
        Ok(States {
            sets: Shared::of(alloc, sets)?,
        })
    }
}
