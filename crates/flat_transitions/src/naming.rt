//! What names mean, with the state sets that were named so far.

ghost use Rattle.std.specs.Prelude.{◌≡◌, ◌++◌, IfOk};
ghost use Rattle.estelle_model.specs.declared.meaning.Meaning.TheVariants as meaning;
ghost use Rattle.estelle_model.specs.Names.{at_place};
ghost use Rattle.estelle_model.specs.Bodies as bodies;
ghost use Rattle.meaning_table.specs.Known.{meanings_of};

use crate::states::{Gathered, StateSet, States};
use estelle_model::Meaning;
use estelle_tree::{Items, Name, Sequence};
use indexmap::IndexMap;
use meaning_table::Table;
use std::alloc::AllocError;
use std::marker::Model;

/// What names mean. A state set is made once, and shared by all clauses that name it.
#[derive(Drop)]
pub struct Naming<'t, 'a> {
    table: &'t Table<'a>,
    /// By the places where they are declared.
    sets: IndexMap<u32, StateSet>,
}

impl<'t, 'a> Model for Naming<'t, 'a> {
    ghost use Rattle.meaning_table.specs.Known.{Known};
    ghost use Rattle.flat_transitions.specs.StateSets.{AreDeclared};
    ghost use Rattle.pascal_values.specs.contracts.value.Value as of_values;
    ghost use Rattle.estelle_model.specs.contracts.denoter.Denoter as of_denoters;
    ghost use Rattle.estelle_tree.specs.contracts.tree.statement.Stmts as of_statements;
    ghost use Rattle.std.specs.Coded.{codes};

    ghost Value = { Known };

    ghost coded = { Prim.hlevel (codes, of_values.the_row.coded, of_denoters.the_row.coded, of_statements.the_row.coded) };

    ghost view = { λ n. n.table.now };

    ghost invariant = { λ n. AreDeclared n.table.now n.sets.entries };
}

fn set_of(table: &Table, states: &[u32]) -> Result<StateSet, AllocError>
    ensures { IfOk result (λ set. set ≡ states.now) }
{
    StateSet::of(table.alloc, Items::from_slice(table.alloc, states)?)
}

impl<'t, 'a> Naming<'t, 'a> {
    pub fn new(table: &'t Table<'a>) -> Naming<'t, 'a>
        ensures { result ≡ table.now }
    {
        Naming {
            table,
            sets: IndexMap::new(table.alloc),
        }
    }

    pub fn table(&self) -> &'t Table<'a>
        ensures { result.now ≡ self.now }
    {
        self.table
    }

    /// The state set that is declared at a place, of these states.
    fn set_at(&mut self, at: u32, states: &[u32]) -> Result<StateSet, AllocError>
        requires { at_place self.old.declared at ≡ meaning.StateSet states.now }
        ensures stays { self.new ≡ self.old }
        ensures set { IfOk result (λ set. set ≡ states.now) }
    {
        if let Some(set) = self.sets.get(&at) {
            return set.share();
        }
        let set = set_of(self.table, states)?;
        self.sets.insert(at, set.share()?)?;
        Ok(set)
    }

    /// The state set that a name means, of these states.
    fn set_named(&mut self, name: &Name, states: &[u32]) -> Result<StateSet, AllocError>
        requires { meanings_of self.old name.now ≡ meaning.StateSet states.now }
        ensures stays { self.new ≡ self.old }
        ensures set { IfOk result (λ set. set ≡ states.now) }
    {
        match self.table.declaration_of(name) {
            None => set_of(self.table, states),
            Some(decl) => {
                if decl.end == 0 {
                    return set_of(self.table, states);
                }
                self.set_at(decl.start, states)
            }
        }
    }

    /// The states so far, with those that one more name stands for.
    fn with_name(&mut self, mut gathered: Gathered, name: &Name) -> Result<Gathered, AllocError>
        ensures stays { self.new ≡ self.old }
        ensures states { IfOk result (λ more. more ≡ gathered ++ bodies.numbers_of (meanings_of self.old name.now)) }
    {
        let table = self.table;
        match table.meaning(name) {
            Meaning::State(number) => {
                gathered.push(*number)?;
                Ok(gathered)
            }
            Meaning::StateSet(states) => {
                let set = self.set_named(name, states.items())?;
                gathered.with(table.alloc, set)
            }
            _ => Ok(gathered),
        }
    }

    /// The states that these names stand for.
    pub fn states_named(&mut self, names: &[Name]) -> Result<States, AllocError>
        ensures stays { self.new ≡ self.old }
        ensures states { IfOk result (λ states. states ≡ bodies.states_named (meanings_of self.old) names.now) }
    {
        let table = self.table;
        let mut gathered = Gathered::nothing(table.alloc);
        for name in names {
            gathered = self.with_name(gathered, name)?;
        }
        gathered.shared(table.alloc)
    }
}
