//! Channels, headers, bodies and specifications.

ghost use Rattle.std.specs.Prelude.{◌≡◌, ◌∷◌, [], map, OnOk, IfOk};
ghost use Rattle.std.specs.List.{flat_map};
ghost use Rattle.std.specs.Char.{to_ascii_lowercase};
ghost use Rattle.scope_rules.specs.declared.event.Event.TheVariants.{By};
ghost use Rattle.scope_rules.specs.SpecificationEvents as spec;
ghost use Rattle.scope_rules.specs.ClauseEvents.{any_of, body_states};
ghost use Rattle.scope_names_events.specs.Writing.{write, put};

use crate::clauses::{body_states, use_each};
use crate::declarations::{write_parameters, write_routine_name};
use crate::node::{Node, chain, optional};
use crate::types::write_all_typed;
use crate::writer::{Writer, copy_name, one};
use estelle_tree::{
    Body, Channel, Decl, Header, IDENTIFIERS, Init, Inter, InterGroup, IpDecl, Items, ModvarDecl,
    Name, ParamGroup, Params, Parts, RequiredIdentifier, Sequence, Span, Spec, StatesetDef, Trans,
    Word,
};
use scope_rules::{Denotes, Event, Inside, Need, ScopeForm, Step};
use std::alloc::{AllocError, Global};

impl Node for ParamGroup {
    ghost events = { spec.param_group };

    fn write(&self, out: &mut Writer) -> Result<(), AllocError> {
        write_parameters(&self.names, &self.type_name, out)
    }
}

impl Node for Params {
    ghost events = { spec.params };

    fn write(&self, out: &mut Writer) -> Result<(), AllocError> {
        chain(self.groups.items(), out)
    }
}

impl Node for Inter {
    ghost events = { spec.inter };

    fn write(&self, out: &mut Writer) -> Result<(), AllocError> {
        out.declare(&self.name, Denotes::Interaction, Inside::At(self.name.span))?;
        out.push(Event::Open(ScopeForm::Inner))?;
        optional(&self.params, out)?;
        out.push(Event::Keep(self.name.span))
    }
}

/// The roles behind `by`.
fn write_roles(roles: &[Name], out: &mut Writer) -> Result<(), AllocError>
    ensures { OnOk result (out.new ≡ write out.old (map By roles.now)) }
{
    for role in roles {
        let role = copy_name(out.alloc, role)?;
        out.push(Event::By(role))?;
    }
    Ok(())
}

impl Node for InterGroup {
    ghost events = { spec.inter_group };

    fn write(&self, out: &mut Writer) -> Result<(), AllocError> {
        write_roles(self.roles.names.items(), out)?;
        chain(self.inters.items(), out)
    }
}

/// The two roles of a channel are declared.
fn write_role_names(first: &Name, second: &Name, out: &mut Writer) -> Result<(), AllocError>
    ensures { OnOk result (out.new ≡ put out.old (spec.roles_declared first.now second.now)) }
{
    let mut names = one(out.alloc, copy_name(out.alloc, first)?)?;
    names.push(copy_name(out.alloc, second)?)?;
    out.push(Event::Declare {
        names,
        denotes: Denotes::Role,
        inside: Inside::Nothing,
    })
}

impl Node for Channel {
    ghost events = { spec.channel };

    fn write(&self, out: &mut Writer) -> Result<(), AllocError> {
        out.declare(&self.name, Denotes::Channel, Inside::At(self.name.span))?;
        out.push(Event::Open(ScopeForm::Inner))?;
        write_role_names(&self.first_role, &self.second_role, out)?;
        chain(self.groups.items(), out)?;
        out.push(Event::Keep(self.name.span))
    }
}

impl Node for IpDecl {
    ghost events = { spec.ip_decl };

    fn write(&self, out: &mut Writer) -> Result<(), AllocError> {
        let name = copy_name(out.alloc, &self.channel)?;
        let role = copy_name(out.alloc, &self.role)?;
        let steps = one(out.alloc, Step::Role(role))?;
        out.push(Event::Use {
            name,
            need: Need::Channel,
            steps,
        })?;
        let inside = Inside::Brought(self.channel.span);
        out.declare_all(self.names.names.items(), Denotes::Ip, inside)
    }
}

impl Node for ModvarDecl {
    ghost events = { spec.modvar_decl };

    fn write(&self, out: &mut Writer) -> Result<(), AllocError> {
        out.use_alone(Need::Header, &self.header)?;
        let inside = Inside::Brought(self.header.span);
        out.declare_all(self.names.names.items(), Denotes::ModuleVariable, inside)
    }
}

impl Node for StatesetDef {
    ghost events = { spec.stateset_def };

    fn write(&self, out: &mut Writer) -> Result<(), AllocError> {
        use_each(Need::State, self.states.names.items(), out)?;
        out.declare(&self.name, Denotes::StateSet, Inside::Nothing)
    }
}

impl Node for Header {
    ghost events = { spec.header };

    fn write(&self, out: &mut Writer) -> Result<(), AllocError> {
        out.declare(&self.name, Denotes::Header, Inside::At(self.name.span))?;
        out.push(Event::Open(ScopeForm::Inner))?;
        optional(&self.params, out)?;
        chain(self.ips.items(), out)?;
        write_all_typed(self.exports.items(), Denotes::Exported, out)?;
        out.push(Event::Keep(self.name.span))
    }
}

/// The state behind `to`.
fn write_first_state(to: &Option<Name>, out: &mut Writer) -> Result<(), AllocError>
    ensures { OnOk result (out.new ≡ write out.old (spec.first_state to.now)) }
{
    match to {
        Some(name) => out.use_alone(Need::State, name),
        None => Ok(()),
    }
}

impl Node for Init {
    ghost events = { spec.init };

    fn write(&self, out: &mut Writer) -> Result<(), AllocError> {
        write_first_state(&self.to, out)?;
        self.block.write(out)
    }
}

impl Node for Trans {
    ghost events = { spec.trans };

    fn write(&self, out: &mut Writer) -> Result<(), AllocError> {
        out.push(Event::Open(ScopeForm::Inner))?;
        self.body.write(out)?;
        out.push(Event::Close)
    }
}

fn has_to(init: &Option<Init>) -> bool
    ensures { result ≡ spec.has_to init.now }
{
    match init {
        None => false,
        Some(init) => init.to.is_some(),
    }
}

fn declares_states(decl: &Decl) -> bool
    ensures { result ≡ (spec.decl decl.now).states }
{
    match decl {
        Decl::State { .. } => true,
        _ => false,
    }
}

fn any_declares_states(decls: &[Decl]) -> bool
    ensures { result ≡ any_of (λ x. (spec.decl x).states) decls.now }
{
    for decl in decls {
        if declares_states(decl) {
            return true;
        }
    }
    false
}

fn any_has_states(trans: &[Trans]) -> bool
    ensures { result ≡ any_of (λ t. body_states t.body) trans.now }
{
    for trans in trans {
        if body_states(&trans.body) {
            return true;
        }
    }
    false
}

/// What the states and transitions of a specification or body are.
fn write_states(at: Span, parts: &Parts, out: &mut Writer) -> Result<(), AllocError>
    ensures { OnOk result (out.new ≡ write out.old (spec.states_of at (spec.parts parts.now))) }
{
    out.push(Event::States {
        at,
        declared: any_declares_states(parts.decls.items()),
        initial: has_to(&parts.init),
        transitions: any_has_states(parts.trans.items()),
    })
}

/// The name of the routine that a declaration is.
fn write_decl_routine(decl: &Decl, out: &mut Writer) -> Result<(), AllocError>
    ensures { OnOk result (out.new ≡ write out.old (spec.decl decl.now).routine) }
{
    match decl {
        Decl::Routine(routine) => write_routine_name(routine, out),
        _ => Ok(()),
    }
}

fn write_routines(decls: &[Decl], out: &mut Writer) -> Result<(), AllocError>
    ensures { OnOk result (out.new ≡ write out.old (flat_map (λ x. (spec.decl x).routine) decls.now)) }
{
    for decl in decls {
        write_decl_routine(decl, out)?;
    }
    Ok(())
}

/// What stands before the parts of a body.
fn write_body_head(
    name: &Name,
    header: &Name,
    span: Span,
    parts: &Parts,
    out: &mut Writer,
) -> Result<(), AllocError>
    ensures { OnOk result (out.new ≡ write out.old (spec.body_head name.now header.now span (spec.parts parts.now))) }
{
    out.declare(name, Denotes::Body, Inside::At(header.span))?;
    out.use_alone(Need::Header, header)?;
    write_states(span, parts, out)?;
    out.push(Event::Open(ScopeForm::Body))?;
    let header = copy_name(out.alloc, header)?;
    out.push(Event::Import(header))
}

#[cycle(bodies)]
fn write_parts(parts: &Parts, out: &mut Writer) -> Result<(), AllocError>
    ensures { OnOk result (out.new ≡ write out.old (spec.parts parts.now).events) }
{
    write_routines(parts.decls.items(), out)?;
    write_decls(parts.decls.items(), out)?;
    optional(&parts.init, out)?;
    chain(parts.trans.items(), out)
}

#[cycle(bodies)]
fn write_decls(decls: &[Decl], out: &mut Writer) -> Result<(), AllocError>
    ensures { OnOk result (out.new ≡ write out.old (flat_map (λ x. (spec.decl x).events) decls.now)) }
{
    for decl in decls {
        write_decl(decl, out)?;
    }
    Ok(())
}

#[cycle(bodies)]
fn write_decl(decl: &Decl, out: &mut Writer) -> Result<(), AllocError>
    ensures { OnOk result (out.new ≡ write out.old (spec.decl decl.now).events) }
{
    match decl {
        Decl::Const { defs, .. } => chain(defs.items(), out),
        Decl::Types { defs, .. } => chain(defs.items(), out),
        Decl::Channel(channel) => channel.write(out),
        Decl::Header(header) => header.write(out),
        Decl::Body(body) => write_body(body, out),
        Decl::Ip { ips, .. } => chain(ips.items(), out),
        Decl::Modvar { modvars, .. } => chain(modvars.items(), out),
        Decl::Var { vars, .. } => write_all_typed(vars.items(), Denotes::Variable, out),
        Decl::State { states, .. } => out.declare_all(
            states.names.items(),
            Denotes::State,
            Inside::Nothing,
        ),
        Decl::Stateset { sets, .. } => chain(sets.items(), out),
        Decl::Routine(routine) => routine.write(out),
    }
}

#[cycle(bodies)]
fn write_body(body: &Body, out: &mut Writer) -> Result<(), AllocError>
    ensures { OnOk result (out.new ≡ write out.old (spec.body body.now)) }
{
    write_body_head(&body.name, &body.header, body.span, &body.parts, out)?;
    write_parts(&body.parts, out)?;
    out.push(Event::Close)
}

fn required(alloc: Global, word: &[u8]) -> Result<Name, AllocError>
    ensures { IfOk result (λ name. name ≡ spec.required (map to_ascii_lowercase word.now)) }
{
    Ok(Name {
        word: Word::of(alloc, word)?,
        span: Span { start: 0, end: 0 },
    })
}

fn denotes_required(identifier: RequiredIdentifier) -> Denotes
    ensures { result ≡ spec.denotes_required identifier }
{
    match identifier {
        RequiredIdentifier::Integer | RequiredIdentifier::Boolean | RequiredIdentifier::Char => {
            Denotes::Type
        }
        RequiredIdentifier::False | RequiredIdentifier::True | RequiredIdentifier::Maxint => {
            Denotes::Constant
        }
        RequiredIdentifier::Function(_) => Denotes::RequiredFunction,
    }
}

/// A required identifier is declared.
fn declare_required(
    identifier: &(&[u8], RequiredIdentifier),
    out: &mut Writer,
) -> Result<(), AllocError>
    ensures { OnOk result (out.new ≡ put out.old (spec.required_event (map to_ascii_lowercase identifier.now.0.now) identifier.now.1)) }
{
    let name = required(out.alloc, identifier.0)?;
    out.push(Event::Declare {
        names: one(out.alloc, name)?,
        denotes: denotes_required(identifier.1),
        inside: Inside::Nothing,
    })
}

fn declare_each(
    mut identifiers: &[(&[u8], RequiredIdentifier)],
    out: &mut Writer,
) -> Result<(), AllocError>
    ensures { OnOk result (out.new ≡ write out.old (map (λ e. spec.required_event (map to_ascii_lowercase e.0.now) e.1) identifiers.entry.now)) }
{
    while let [identifier, rest @ ..] = identifiers {
        declare_required(identifier, out)?;
        identifiers = rest;
    }
    Ok(())
}

fn write_required(out: &mut Writer) -> Result<(), AllocError>
    ensures { OnOk result (out.new ≡ write out.old spec.required_events) }
{
    declare_each(&IDENTIFIERS, out)
}

/// What a specification says of scopes and names.
pub fn events(alloc: Global, tree: &Spec) -> Result<Items<Event>, AllocError>
    ensures { IfOk result (λ es. es ≡ spec.events tree.now) }
{
    let mut out = Writer::new(alloc);
    out.push(Event::Open(ScopeForm::Inner))?;
    write_required(&mut out)?;
    write_states(tree.span, &tree.parts, &mut out)?;
    out.push(Event::Open(ScopeForm::Body))?;
    write_parts(&tree.parts, &mut out)?;
    out.push(Event::Close)?;
    out.push(Event::Close)?;
    Ok(out.end())
}
