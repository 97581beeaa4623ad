//! Channels, and the parameters of interactions and headers (ISO/IEC 9074).

ghost use Rattle.std.specs.Prelude.{◌≡◌, map, IfOk, OnOk};
ghost use Rattle.std.specs.List.{flat_map, list_any};
ghost use Rattle.std.specs.Str.{bytes_eq};
ghost use Rattle.estelle_model.specs.Denoted.{sections_declare, section_types, count_names};
ghost use Rattle.estelle_model.specs.Definitions as spec;
ghost use Rattle.meaning_table.specs.Known.{meanings_of, declare_all};
ghost use Rattle.meaning_table.specs.Kinds.{variables};
ghost use Rattle.meaning_table.specs.Sections.{group_section};

use crate::node::Node;
use estelle_model::{InteractionKind, Meaning, Role, Senders, Type};
use estelle_tree::{Channel, Inter, InterGroup, Items, Name, ParamGroup, Params, Sequence};
use meaning_table::{Alone, Table, VariableKind, declare_sections, push_types};
use std::alloc::AllocError;

fn groups_of(params: &Option<Params>) -> &[ParamGroup]
    ensures { map group_section result.now ≡ spec.parameter_sections params.now }
{
    match params {
        None => &[],
        Some(params) => params.groups.items(),
    }
}

/// Parameters as variables. It answers the number behind them.
pub fn declare_params(
    table: &mut Table,
    kind: VariableKind,
    params: &Option<Params>,
) -> Result<u32, AllocError>
    ensures { IfOk result (λ next. (table.new ≡ declare_all table.old (sections_declare (variables kind) 0 (spec.parameter_sections params.now))) × (next ≡ count_names (spec.parameter_sections params.now))) }
{
    let next = declare_sections(table, &Alone, kind, 0, groups_of(params))?;
    Ok(next)
}

/// The types of parameters.
pub fn param_types(table: &Table, params: &Option<Params>) -> Result<Items<Type>, AllocError>
    ensures { IfOk result (λ types. types ≡ section_types (meanings_of table.now) (spec.parameter_sections params.now)) }
{
    let mut types = Items::new(table.alloc);
    push_types(table, groups_of(params), &mut types)?;
    Ok(types)
}

/// Whether one of these names is that of a role.
fn is_among(names: &[Name], role: &Name) -> bool
    ensures { result ≡ list_any (λ x. bytes_eq x.word role.now.word) names.now }
{
    names
        .iter()
        .any(|name| name.word.items() == role.word.items())
}

/// The roles behind `by`.
fn senders(channel: &Channel, group: &InterGroup) -> Senders
    ensures { result ≡ spec.senders channel.now group.now }
{
    Senders {
        first: is_among(group.roles.names.items(), &channel.first_role),
        second: is_among(group.roles.names.items(), &channel.second_role),
    }
}

fn declare_interaction(
    table: &mut Table,
    channel: u32,
    by: Senders,
    inter: &Inter,
) -> Result<(), AllocError>
    ensures { OnOk result (table.new ≡ declare_all table.old (spec.inter_declares channel by inter.now)) }
{
    declare_params(table, VariableKind::Local, &inter.params)?;
    let parameters = param_types(table, &inter.params)?;
    let kind = InteractionKind {
        channel,
        word: inter.name.word.copy(table.alloc)?,
        senders: by,
        parameters,
    };
    table.declare(inter.name.span.start, Meaning::Interaction(kind))
}

fn declare_interactions(
    table: &mut Table,
    channel: u32,
    by: Senders,
    inters: &[Inter],
) -> Result<(), AllocError>
    ensures { OnOk result (table.new ≡ declare_all table.old (flat_map (spec.inter_declares channel by) inters.now)) }
{
    for inter in inters {
        declare_interaction(table, channel, by, inter)?;
    }
    Ok(())
}

fn declare_groups(
    table: &mut Table,
    channel: &Channel,
    groups: &[InterGroup],
) -> Result<(), AllocError>
    ensures { OnOk result (table.new ≡ declare_all table.old (flat_map (spec.group_declares channel.now) groups.now)) }
{
    for group in groups {
        let by = senders(channel, group);
        declare_interactions(table, channel.name.span.start, by, group.inters.items())?;
    }
    Ok(())
}

impl Node for Channel {
    ghost declares = { spec.channel_declares };

    fn declare(&self, table: &mut Table) -> Result<(), AllocError> {
        let at = self.name.span.start;
        table.declare(at, Meaning::Channel(at))?;
        table.declare(self.first_role.span.start, Meaning::Role(Role::First))?;
        table.declare(self.second_role.span.start, Meaning::Role(Role::Second))?;
        declare_groups(table, self, self.groups.items())
    }
}
