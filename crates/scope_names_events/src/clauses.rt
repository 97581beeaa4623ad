//! Blocks, clauses and groups of clauses.

ghost use Rattle.std.specs.Prelude.{◌≡◌, ◌∷◌, [], OnOk, IfOk};
ghost use Rattle.std.specs.List.{flat_map};
ghost use Rattle.scope_rules.specs.declared.declaration.Denotes.TheVariants as d;
ghost use Rattle.scope_rules.specs.declared.declaration.Inside.TheVariants.{Nothing};
ghost use Rattle.scope_rules.specs.declared.event.Event.TheVariants.{Declare};
ghost use Rattle.scope_rules.specs.TypeEvents.{use_alone, ordinal_events};
ghost use Rattle.scope_rules.specs.ClauseEvents as spec;
ghost use Rattle.scope_names_events.specs.Writing.{write};

use crate::node::{Node, chain, optional};
use crate::writer::{Writer, copy_name, copy_names};
use estelle_tree::{
    AnyDom, Block, Clause, DelayHigh, Group, Items, Name, NameList, NextState, Sequence, TransBody,
};
use scope_rules::{Denotes, Event, Inside, Need, ScopeForm};
use std::alloc::{AllocError, Global};

impl Node for Block {
    ghost events = { spec.block };

    fn write(&self, out: &mut Writer) -> Result<(), AllocError> {
        out.push(Event::Open(ScopeForm::Inner))?;
        chain(self.decls.items(), out)?;
        self.body.write(out)?;
        out.push(Event::Close)
    }
}

impl Node for NextState {
    ghost events = { spec.next_state_events };

    fn write(&self, out: &mut Writer) -> Result<(), AllocError> {
        match self {
            NextState::Name(name) => out.use_alone(Need::State, name),
            NextState::Same => Ok(()),
        }
    }
}

impl Node for DelayHigh {
    ghost events = { spec.delay_high_events };

    fn write(&self, out: &mut Writer) -> Result<(), AllocError> {
        match self {
            DelayHigh::Expr(expr) => expr.write(out),
            DelayHigh::Star => Ok(()),
        }
    }
}

/// Names in use one by one, each with nothing behind it.
pub fn use_each(need: Need, names: &[Name], out: &mut Writer) -> Result<(), AllocError>
    ensures { OnOk result (out.new ≡ write out.old (flat_map (use_alone need) names.now)) }
{
    for name in names {
        out.use_alone(need, name)?;
    }
    Ok(())
}

fn listed(alloc: Global, params: &Option<NameList>) -> Result<Option<Items<Name>>, AllocError>
    ensures { IfOk result (λ copy. copy ≡ spec.listed params.now) }
{
    match params {
        None => Ok(None),
        Some(names) => Ok(Some(copy_names(alloc, names.names.items())?)),
    }
}

fn write_domains(domains: &[AnyDom], out: &mut Writer) -> Result<(), AllocError>
    ensures { OnOk result (out.new ≡ write out.old (flat_map (λ x. ordinal_events x.domain) domains.now)) }
{
    for any in domains {
        any.domain.write(out)?;
    }
    Ok(())
}

fn write_any_names(domains: &[AnyDom], out: &mut Writer) -> Result<(), AllocError>
    ensures { OnOk result (out.new ≡ write out.old (flat_map (λ x. Declare x.names.names d.Constant Nothing ∷ []) domains.now)) }
{
    for any in domains {
        out.declare_all(any.names.names.items(), Denotes::Constant, Inside::Nothing)?;
    }
    Ok(())
}

fn write_when(
    ip: &Name,
    interaction: &Name,
    params: &Option<NameList>,
    out: &mut Writer,
) -> Result<(), AllocError>
    ensures { OnOk result (out.new ≡ write out.old (spec.when_events ip.now interaction.now params.now)) }
{
    out.use_member(Need::Ip, ip, Need::Interaction, interaction)?;
    let ip = copy_name(out.alloc, ip)?;
    let interaction = copy_name(out.alloc, interaction)?;
    let listed = listed(out.alloc, params)?;
    out.push(Event::Receive {
        ip,
        interaction,
        listed,
    })
}

impl Node for Clause {
    ghost events = { spec.clause_events };

    fn write(&self, out: &mut Writer) -> Result<(), AllocError> {
        match self {
            Clause::From { states, .. } => use_each(Need::Origin, states.names.items(), out),
            Clause::To { state, .. } => state.write(out),
            Clause::When {
                ip,
                interaction,
                params,
                ..
            } => write_when(ip, interaction, params, out),
            Clause::Provided { condition, .. } => condition.write(out),
            Clause::Priority { value, .. } => value.write(out),
            Clause::Any { domains, .. } => {
                write_domains(domains.items(), out)?;
                write_any_names(domains.items(), out)
            }
            Clause::Delay { low, high, .. } => {
                low.write(out)?;
                optional(high, out)
            }
        }
    }
}

#[cycle(groups)]
fn write_trans_body(body: &TransBody, out: &mut Writer) -> Result<(), AllocError>
    ensures { OnOk result (out.new ≡ write out.old (spec.trans_body body.now)) }
{
    match body {
        TransBody::Block(block) => block.write(out),
        TransBody::Groups { groups, .. } => write_groups(groups.items(), out),
    }
}

#[cycle(groups)]
fn write_groups(groups: &[Group], out: &mut Writer) -> Result<(), AllocError>
    ensures { OnOk result (out.new ≡ write out.old (flat_map spec.group groups.now)) }
{
    for group in groups {
        write_group(group, out)?;
    }
    Ok(())
}

#[cycle(groups)]
fn write_group(group: &Group, out: &mut Writer) -> Result<(), AllocError>
    ensures { OnOk result (out.new ≡ write out.old (spec.group group.now)) }
{
    out.push(Event::Open(ScopeForm::Further))?;
    group.clause.write(out)?;
    write_trans_body(&group.body, out)?;
    out.push(Event::Close)
}

impl Node for TransBody {
    ghost events = { spec.trans_body };

    fn write(&self, out: &mut Writer) -> Result<(), AllocError> {
        write_trans_body(self, out)
    }
}

fn names_state(clause: &Clause) -> bool
    ensures { result ≡ spec.names_state clause.now }
{
    match clause {
        Clause::From { .. } => true,
        Clause::To {
            state: NextState::Name(_),
            ..
        } => true,
        _ => false,
    }
}

/// Whether a transition in it has `from`, or `to` with a state.
#[cycle(states)]
pub fn body_states(body: &TransBody) -> bool
    ensures { result ≡ spec.body_states body.now }
{
    match body {
        TransBody::Block(_) => false,
        TransBody::Groups { groups, .. } => groups_states(groups.items()),
    }
}

#[cycle(states)]
fn groups_states(groups: &[Group]) -> bool
    ensures { result ≡ spec.any_of spec.group_states groups.now }
{
    for group in groups {
        if group_states(group) {
            return true;
        }
    }
    false
}

#[cycle(states)]
fn group_states(group: &Group) -> bool
    ensures { result ≡ spec.group_states group.now }
{
    if names_state(&group.clause) {
        return true;
    }
    body_states(&group.body)
}
