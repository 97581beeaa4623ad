//! What the clauses on the way to a block say.

ghost use Rattle.std.specs.Prelude.{◌≡◌, ◌++◌, ◌∷◌, [], IfOk, OnOk};
ghost use Rattle.estelle_model.specs.Definitions as definitions;
ghost use Rattle.estelle_model.specs.Transitions as model;
ghost use Rattle.flat_transitions.specs.Walks.{unsaid, with_clause};
ghost use Rattle.meaning_table.specs.Known.{meanings_of};

use crate::choice::Choice;
use crate::choices::choices_with;
use crate::clauses::{Condition, Delay, Priority, When};
use crate::naming::Naming;
use crate::shared::Shared;
use crate::states::States;
use estelle_model::{Meaning, Type};
use estelle_tree::{Clause, Items, Name, NextState, Sequence};
use meaning_table::Table;
use std::alloc::{AllocError, Global};

/// What the clauses on the way to a block say. Of two clauses of one kind the outer one counts.
#[derive(Drop)]
pub struct ClausesInForce<'a> {
    pub from: Option<States>,
    pub to: Option<u32>,
    pub when: Option<When<'a>>,
    pub received: Shared<Type>,
    pub provided: Option<Condition<'a>>,
    pub priority: Option<Priority<'a>>,
    pub delay: Option<Delay<'a>>,
    /// The choices of values for the names of `any` on the way.
    pub choices: Shared<Shared<Choice>>,
}

// ---- the same once more

fn share_states(from: &Option<States>) -> Result<Option<States>, AllocError>
    ensures { IfOk result (λ shared. shared ≡ from.now) }
{
    match from {
        None => Ok(None),
        Some(states) => Ok(Some(states.share()?)),
    }
}

fn share_when<'a>(when: &Option<When<'a>>) -> Option<When<'a>>
    ensures { result ≡ when.now }
{
    match when {
        None => None,
        Some(when) => Some(when.share()),
    }
}

fn share_condition<'a>(provided: &Option<Condition<'a>>) -> Option<Condition<'a>>
    ensures { result ≡ provided.now }
{
    match provided {
        None => None,
        Some(condition) => Some(Condition::of(condition.get())),
    }
}

fn share_priority<'a>(priority: &Option<Priority<'a>>) -> Option<Priority<'a>>
    ensures { result ≡ priority.now }
{
    match priority {
        None => None,
        Some(priority) => Some(Priority::of(priority.get())),
    }
}

fn share_delay<'a>(delay: &Option<Delay<'a>>) -> Option<Delay<'a>>
    ensures { result ≡ delay.now }
{
    match delay {
        None => None,
        Some(delay) => Some(Delay::of(delay.low(), delay.high())),
    }
}

// ---- with one more clause

fn states_of(naming: &mut Naming, clause: &Clause) -> Result<Option<States>, AllocError>
    ensures stays { naming.new ≡ naming.old }
    ensures from { IfOk result (λ from. from ≡ model.from_of (meanings_of naming.old) clause.now) }
{
    match clause {
        Clause::From { states, .. } => Ok(Some(naming.states_named(states.names.items())?)),
        _ => Ok(None),
    }
}

fn from_with(
    naming: &mut Naming,
    from: &Option<States>,
    clause: &Clause,
) -> Result<Option<States>, AllocError>
    ensures stays { naming.new ≡ naming.old }
    ensures from { IfOk result (λ with. with ≡ model.or_first from.now (model.from_of (meanings_of naming.old) clause.now)) }
{
    match from {
        None => states_of(naming, clause),
        Some(_) => share_states(from),
    }
}

fn next_state(table: &Table, state: &NextState) -> Option<u32>
    ensures { result ≡ model.next_state (meanings_of table.now) state.now }
{
    match state {
        NextState::Name(name) => match table.meaning(name) {
            Meaning::State(number) => Some(*number),
            _ => None,
        },
        NextState::Same => None,
    }
}

fn to_with(table: &Table, to: Option<u32>, clause: &Clause) -> Option<u32>
    ensures { result ≡ model.or_first to (model.to_of (meanings_of table.now) clause.now) }
{
    match (to, clause) {
        (None, Clause::To { state, .. }) => next_state(table, state),
        _ => to,
    }
}

fn when_of<'a>(table: &Table, clause: &'a Clause) -> Option<When<'a>>
    ensures { result ≡ model.when_of (meanings_of table.now) clause.now }
{
    match clause {
        Clause::When {
            ip,
            interaction,
            ..
        } => match table.meaning(ip) {
            Meaning::Ip(number) => Some(When::of(*number, interaction)),
            _ => None,
        },
        _ => None,
    }
}

fn when_with<'a>(table: &Table, when: &Option<When<'a>>, clause: &'a Clause) -> Option<When<'a>>
    ensures { result ≡ model.or_first when.now (model.when_of (meanings_of table.now) clause.now) }
{
    match when {
        None => when_of(table, clause),
        Some(_) => share_when(when),
    }
}

fn push_types(out: &mut Items<Type>, types: &[Type]) -> Result<(), AllocError>
    ensures { OnOk result (out.new ≡ out.old ++ types.now) }
{
    for denoter in types {
        out.push(denoter.share()?)?;
    }
    Ok(())
}

fn both_types(alloc: Global, first: &[Type], second: &[Type]) -> Result<Shared<Type>, AllocError>
    ensures { IfOk result (λ types. types ≡ first.now ++ second.now) }
{
    let mut types = Items::new(alloc);
    push_types(&mut types, first)?;
    push_types(&mut types, second)?;
    Shared::of(alloc, types)
}

fn received_at(
    alloc: Global,
    before: &Shared<Type>,
    meaning: &Meaning,
) -> Result<Shared<Type>, AllocError>
    ensures { IfOk result (λ types. types ≡ before.now ++ definitions.types_received meaning.now) }
{
    match meaning {
        Meaning::Interaction(kind) => both_types(alloc, before.items(), kind.parameters.items()),
        _ => before.share(),
    }
}

fn received_with(
    table: &Table,
    before: &Shared<Type>,
    clause: &Clause,
) -> Result<Shared<Type>, AllocError>
    ensures { IfOk result (λ types. types ≡ before.now ++ definitions.received (meanings_of table.now) (clause.now ∷ [])) }
{
    match clause {
        Clause::When { interaction, .. } => received_at(
            table.alloc,
            before,
            table.meaning(interaction),
        ),
        _ => before.share(),
    }
}

fn provided_of<'a>(table: &Table, clause: &'a Clause) -> Option<Condition<'a>>
    ensures { result ≡ model.provided_of (meanings_of table.now) clause.now }
{
    match clause {
        Clause::Provided { condition, .. } => Some(Condition::of(condition)),
        _ => None,
    }
}

fn provided_with<'a>(
    table: &Table,
    provided: &Option<Condition<'a>>,
    clause: &'a Clause,
) -> Option<Condition<'a>>
    ensures { result ≡ model.or_first provided.now (model.provided_of (meanings_of table.now) clause.now) }
{
    match provided {
        None => provided_of(table, clause),
        Some(_) => share_condition(provided),
    }
}

fn priority_of<'a>(table: &Table, clause: &'a Clause) -> Option<Priority<'a>>
    ensures { result ≡ model.priority_of (meanings_of table.now) clause.now }
{
    match clause {
        Clause::Priority { value, .. } => Some(Priority::of(value)),
        _ => None,
    }
}

fn priority_with<'a>(
    table: &Table,
    priority: &Option<Priority<'a>>,
    clause: &'a Clause,
) -> Option<Priority<'a>>
    ensures { result ≡ model.or_first priority.now (model.priority_of (meanings_of table.now) clause.now) }
{
    match priority {
        None => priority_of(table, clause),
        Some(_) => share_priority(priority),
    }
}

fn delay_of<'a>(table: &Table, clause: &'a Clause) -> Option<Delay<'a>>
    ensures { result ≡ model.delay_of (meanings_of table.now) clause.now }
{
    match clause {
        Clause::Delay { low, high, .. } => Some(Delay::of(low, high)),
        _ => None,
    }
}

fn delay_with<'a>(table: &Table, delay: &Option<Delay<'a>>, clause: &'a Clause) -> Option<Delay<'a>>
    ensures { result ≡ model.or_first delay.now (model.delay_of (meanings_of table.now) clause.now) }
{
    match delay {
        None => delay_of(table, clause),
        Some(_) => share_delay(delay),
    }
}

/// Where no names are to have values, there is one choice.
fn one_choice(alloc: Global) -> Result<Shared<Shared<Choice>>, AllocError>
    ensures { IfOk result (λ choices. choices ≡ [] ∷ []) }
{
    let mut choices = Items::new(alloc);
    choices.push(Shared::of(alloc, Items::new(alloc))?)?;
    Shared::of(alloc, choices)
}

impl<'a> ClausesInForce<'a> {
    pub fn nothing(alloc: Global) -> Result<ClausesInForce<'a>, AllocError>
        ensures { IfOk result (λ said. said ≡ unsaid) }
    {
        Ok(ClausesInForce {
            from: None,
            to: None,
            when: None,
            received: Shared::of(alloc, Items::new(alloc))?,
            provided: None,
            priority: None,
            delay: None,
            choices: one_choice(alloc)?,
        })
    }

    pub fn share(&self) -> Result<ClausesInForce<'a>, AllocError>
        ensures { IfOk result (λ said. said ≡ self.now) }
    {
        Ok(ClausesInForce {
            from: share_states(&self.from)?,
            to: self.to,
            when: share_when(&self.when),
            received: self.received.share()?,
            provided: share_condition(&self.provided),
            priority: share_priority(&self.priority),
            delay: share_delay(&self.delay),
            choices: self.choices.share()?,
        })
    }

    /// What is said with one more clause.
    pub fn with(
        &self,
        naming: &mut Naming,
        clause: &'a Clause,
    ) -> Result<ClausesInForce<'a>, AllocError>
        ensures stays { naming.new ≡ naming.old }
        ensures said { IfOk result (λ said. said ≡ with_clause (meanings_of naming.old) self.now clause.now) }
    {
        let table = naming.table();
        Ok(ClausesInForce {
            from: from_with(naming, &self.from, clause)?,
            to: to_with(table, self.to, clause),
            when: when_with(table, &self.when, clause),
            received: received_with(table, &self.received, clause)?,
            provided: provided_with(table, &self.provided, clause),
            priority: priority_with(table, &self.priority, clause),
            delay: delay_with(table, &self.delay, clause),
            choices: choices_with(table, &self.choices, clause)?,
        })
    }
}
