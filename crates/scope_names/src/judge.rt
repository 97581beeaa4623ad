//! What one event breaks, what its names mean, and the scopes behind it.

ghost use Rattle.std.specs.Prelude.{◌≡◌, ◌++◌, [], None, IfOk, OnOk};
ghost use Rattle.std.specs.List.{flat_map};
ghost use Rattle.scope_rules.specs.declared.event.Event.TheVariants as event;
ghost use Rattle.scope_rules.specs.Kinds.{is_noted};
ghost use Rattle.scope_rules.specs.Visible as visible;
ghost use Rattle.scope_rules.specs.Scopes as spec;
ghost use Rattle.scope_rules.specs.NameRules.{used, used_at, later, names_listed};
ghost use Rattle.scope_names.specs.Noted as noting;

use crate::names::NameTable;
use crate::table::Table;
use estelle_tree::{Items, Name, Sequence, Span, Use};
use scope_rules::{
    Breach, Declared, Denotes, Event, Inside, Members, Need, Step, may_be, noted, only_if,
};
use std::alloc::{AllocError, Global};

/// What a name brings, where it means what its place needs.
fn reached(need: Need, found: Option<Declared>) -> Members
    ensures { result ≡ visible.reached need found }
{
    match found {
        None => Members::AtFault,
        Some(d) => if may_be(need, d.denotes) {
            d.inside
        } else {
            Members::AtFault
        },
    }
}

fn inside_named(table: &Table, name: &Name, need: Need) -> Members
    ensures { result ≡ visible.inside_named table.now name.now need }
{
    reached(need, table.meaning(name.word.items()))
}

/// What a declaration brings.
fn inside_of(table: &Table, inside: Inside) -> Members
    ensures { result ≡ visible.inside_of table.now inside }
{
    match inside {
        Inside::Nothing => Members::Nothing,
        Inside::At(span) => Members::KeptAt(span.start),
        Inside::Brought(span) => table.brought_at(span.start),
    }
}

/// The parameters of an interaction of an ip.
fn received(table: &Table, ip: &Name, interaction: &Name) -> Members
    ensures { result ≡ visible.received table.now ip.now interaction.now }
{
    let of_channel = inside_named(table, ip, Need::Ip);
    reached(
        Need::Interaction,
        table.member(of_channel, interaction.word.items()),
    )
}

/// The second of two places in the text.
fn later(a: Span, b: Span) -> Span
    ensures { result ≡ later a b }
{
    if b.start < a.start { a } else { b }
}

fn twice(was: Option<Declared>, at: Span) -> Option<Breach>
    ensures { result ≡ noting.twice was at }
{
    match was {
        None => None,
        Some(d) => Some(Breach {
            number: 1,
            span: later(d.at, at),
        }),
    }
}

fn declare_one(
    table: &mut Table,
    alloc: Global,
    name: &Name,
    denotes: Denotes,
    inside: Members,
) -> Result<Option<Breach>, AllocError>
    ensures breach { IfOk result (λ b. b ≡ noting.twice (visible.in_scope table.old name.now.word) name.now.span) }
    ensures table { OnOk result (table.new ≡ spec.declare_one table.old name.now denotes inside) }
{
    let was = table.in_scope(name.word.items());
    let d = Declared {
        at: name.span,
        denotes,
        inside,
    };
    table.declare(alloc, name.word.items(), d)?;
    Ok(twice(was, name.span))
}

fn declare_all(
    table: &mut Table,
    alloc: Global,
    names: &[Name],
    denotes: Denotes,
    inside: Members,
) -> Result<Option<Breach>, AllocError>
    ensures breach { IfOk result (λ b. b ≡ noting.twices None table.old names.now denotes inside) }
    ensures table { OnOk result (table.new ≡ spec.declare_all table.old names.now denotes inside) }
{
    let mut first = None;
    for name in names {
        let breach = declare_one(table, alloc, name, denotes, inside)?;
        first = noted(first, breach);
    }
    Ok(first)
}

fn is_second(table: &Table, parameters: Members, name: &Name) -> bool
    ensures { result ≡ noting.is_second table.now parameters name.now }
{
    if table.member(parameters, name.word.items()).is_some() {
        return table.in_scope(name.word.items()).is_some();
    }
    false
}

fn listed_twice(table: &Table, parameters: Members, listed: &[Name]) -> Option<Breach>
    ensures { result ≡ noting.listed_twice None table.now parameters listed.now }
{
    let mut first = None;
    for name in listed {
        let breach = only_if(is_second(table, parameters, name), 1, name.span);
        first = noted(first, breach);
    }
    first
}

/// The names in a list.
fn table_of(alloc: Global, listed: &[Name]) -> Result<NameTable, AllocError>
    ensures { IfOk result (λ names. names ≡ noting.listed_scope [] listed.now) }
{
    let mut names = NameTable::new(alloc);
    for name in listed {
        let d = Declared {
            at: name.span,
            denotes: Denotes::Variable,
            inside: Members::Nothing,
        };
        names.declare(alloc, name.word.items(), d)?;
    }
    Ok(names)
}

fn parameter_twice(
    table: &Table,
    alloc: Global,
    parameters: Members,
    interaction: &Name,
    listed: &[Name],
) -> Result<Option<Breach>, AllocError>
    ensures { IfOk result (λ b. b ≡ noting.parameter_twice table.now parameters interaction.now listed.now) }
{
    let names = table_of(alloc, listed)?;
    let unlisted = only_if(table.shares(parameters, &names), 1, interaction.span);
    Ok(noted(listed_twice(table, parameters, listed), unlisted))
}

/// The parameters of an interaction that is received, with the list behind it where one stands.
fn received_twice(
    table: &Table,
    alloc: Global,
    parameters: Members,
    interaction: &Name,
    listed: &Option<Items<Name>>,
) -> Result<Option<Breach>, AllocError>
    ensures { IfOk result (λ b. b ≡ noting.parameter_twice table.now parameters interaction.now (names_listed listed.now)) }
{
    match listed {
        Some(names) => parameter_twice(table, alloc, parameters, interaction, names.items()),
        None => parameter_twice(table, alloc, parameters, interaction, &[]),
    }
}

fn misused(name: &Name, need: Need, found: Option<Declared>) -> Option<Breach>
    ensures { result ≡ noting.misused (spec.sought_name name.now need found) }
{
    match found {
        None => only_if(true, 2, name.span),
        Some(d) => only_if(!may_be(need, d.denotes), 3, name.span),
    }
}

/// Notes what a name means.
fn note_use(uses: &mut Items<Use>, name: &Name, found: Option<Declared>) -> Result<(), AllocError>
    ensures { OnOk result (uses.new ≡ uses.old ++ used_at name.now found) }
{
    match found {
        None => Ok(()),
        Some(d) => uses.push(Use {
            at: name.span,
            decl: d.at,
        }),
    }
}

/// Notes what a role means, which breaks no rule on names.
fn note_role(role: &Name, found: Option<Declared>, uses: &mut Items<Use>) -> Result<(), AllocError>
    ensures { OnOk result (uses.new ≡ uses.old ++ flat_map used (spec.sought_role role.now found)) }
{
    match found {
        None => Ok(()),
        Some(d) => {
            if may_be(Need::Role, d.denotes) {
                return note_use(uses, role, Some(d));
            }
            Ok(())
        }
    }
}

/// What is reported of one step and of what stands before it.
fn judge_step(table: &Table, among: Members, step: &Step, first: Option<Breach>) -> Option<Breach>
    ensures { result ≡ noting.misuses first (spec.sought_step table.now among step.now) }
{
    match step {
        Step::Index | Step::Role(_) => first,
        Step::Member { name, need } => noted(
            first,
            misused(name, *need, table.member(among, name.word.items())),
        ),
    }
}

/// Notes what the name in one step means.
fn note_step(
    table: &Table,
    among: Members,
    step: &Step,
    uses: &mut Items<Use>,
) -> Result<(), AllocError>
    ensures { OnOk result (uses.new ≡ uses.old ++ flat_map used (spec.sought_step table.now among step.now)) }
{
    match step {
        Step::Index => Ok(()),
        Step::Member { name, .. } => note_use(uses, name, table.member(among, name.word.items())),
        Step::Role(role) => note_role(role, table.member(among, role.word.items()), uses),
    }
}

/// What a step brings.
fn after_step(table: &Table, among: Members, step: &Step) -> Members
    ensures { result ≡ spec.after_step table.now among step.now }
{
    match step {
        Step::Index => table.brought_by(among),
        Step::Member { name, need } => reached(*need, table.member(among, name.word.items())),
        Step::Role(_) => Members::Nothing,
    }
}

fn is_at_fault(members: Members) -> bool
    ensures { result ≡ noting.is_at_fault members }
{
    match members {
        Members::AtFault => true,
        Members::Nothing | Members::KeptAt(_) => false,
    }
}

fn judge_steps(
    table: &Table,
    from: Members,
    steps: &[Step],
    start: Option<Breach>,
    uses: &mut Items<Use>,
) -> Result<Option<Breach>, AllocError>
    ensures breach { IfOk result (λ b. b ≡ noting.misuses start (spec.sought_steps table.now from steps.now)) }
    ensures uses { OnOk result (uses.new ≡ uses.old ++ flat_map used (spec.sought_steps table.now from steps.now)) }
{
    let mut first = start;
    let mut among = from;
    for step in steps {
        if is_at_fault(among) {
            return Ok(first);
        }
        note_step(table, among, step, uses)?;
        first = judge_step(table, among, step, first);
        among = after_step(table, among, step);
    }
    Ok(first)
}

fn judge_use(
    table: &Table,
    name: &Name,
    need: Need,
    steps: &[Step],
    uses: &mut Items<Use>,
) -> Result<Option<Breach>, AllocError>
    ensures breach { IfOk result (λ b. b ≡ noting.misuses None (spec.sought table.now (event.Use name.now need steps.now))) }
    ensures uses { OnOk result (uses.new ≡ uses.old ++ flat_map used (spec.sought table.now (event.Use name.now need steps.now))) }
{
    let found = table.meaning(name.word.items());
    note_use(uses, name, found)?;
    let breach = noted(None, misused(name, need, found));
    judge_steps(table, reached(need, found), steps, breach, uses)
}

/// Notes what the name of a type, a channel or a header brings.
fn note_name(table: &mut Table, name: &Name, need: Need) -> Result<(), AllocError>
    ensures { OnOk result (table.new ≡ spec.note_name table.old name.now need) }
{
    if is_noted(need) {
        let members = inside_named(table, name, need);
        table.bring(name.span.start, members)?;
    }
    Ok(())
}

/// Whether what a name brings that stands here is noted.
fn is_noted(need: Need) -> bool
    ensures { result ≡ is_noted need }
{
    match need {
        Need::Type | Need::Channel | Need::Header => true,
        _ => false,
    }
}

/// The headers of a module variable and a body differ.
fn header_fault(variable: Members, body: Members, at: Span) -> Option<Breach>
    ensures { result ≡ noting.header_fault variable body at }
{
    match (variable, body) {
        (Members::KeptAt(of), Members::KeptAt(header)) => only_if(of != header, 5, at),
        _ => None,
    }
}

fn states_fault(at: Span, declared: bool, initial: bool, transitions: bool) -> Option<Breach>
    ensures { result ≡ noting.states_fault at declared initial transitions }
{
    if declared {
        return only_if(!initial, 4, at);
    }
    only_if(initial || transitions, 4, at)
}

/// What an event breaks. What its names mean is noted, and the scopes become those behind it.
pub fn judge(
    table: &mut Table,
    alloc: Global,
    event: &Event,
    uses: &mut Items<Use>,
) -> Result<Option<Breach>, AllocError>
    ensures breach { IfOk result (λ b. b ≡ noting.breach_at table.old event.now) }
    ensures table { OnOk result (table.new ≡ spec.after_one table.old event.now) }
    ensures uses { OnOk result (uses.new ≡ uses.old ++ flat_map used (spec.sought table.old event.now)) }
{
    match event {
        Event::Open(form) => {
            table.open(alloc, *form)?;
            Ok(None)
        }
        Event::Close => {
            table.close();
            Ok(None)
        }
        Event::Keep(span) => {
            table.keep(alloc, span.start)?;
            Ok(None)
        }
        Event::Import(header) => {
            let inside = inside_named(table, header, Need::Header);
            table.join(inside)?;
            Ok(None)
        }
        Event::Receive {
            ip,
            interaction,
            listed,
        } => {
            let parameters = received(table, ip, interaction);
            let breach = received_twice(table, alloc, parameters, interaction, listed)?;
            table.join(parameters)?;
            Ok(breach)
        }
        Event::Array { at, components } => {
            let members = inside_of(table, *components);
            table.bring(at.start, members)?;
            Ok(None)
        }
        Event::Declare {
            names,
            denotes,
            inside,
        } => {
            let members = inside_of(table, *inside);
            declare_all(table, alloc, names.items(), *denotes, members)
        }
        Event::Use { name, need, steps } => {
            let breach = judge_use(table, name, *need, steps.items(), uses)?;
            note_name(table, name, *need)?;
            Ok(breach)
        }
        Event::By(role) => {
            note_role(role, table.in_scope(role.word.items()), uses)?;
            Ok(None)
        }
        Event::Init { modvar, body } => {
            let variable = inside_named(table, modvar, Need::ModuleVariable);
            let header = table.brought_by(inside_named(table, body, Need::Body));
            Ok(header_fault(variable, header, body.span))
        }
        Event::States {
            at,
            declared,
            initial,
            transitions,
        } => Ok(states_fault(*at, *declared, *initial, *transitions)),
    }
}
