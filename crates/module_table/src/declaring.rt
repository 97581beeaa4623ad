//! What the nodes of a tree declare.

ghost use Rattle.std.specs.Prelude.{◌≡◌, ◌++◌, map, OnOk, IfOk};
ghost use Rattle.std.specs.List.{flat_map};
ghost use Rattle.type_rules.specs.SpecificationSites as sites;
ghost use Rattle.module_table.specs.Known as spec;

use crate::declared::{Declared, Interaction, InteractionPoint, Sender};
use declaration_table::Table;
use estelle_tree::{
    Channel, Header, Inter, InterGroup, IpDecl, Items, Name, ParamGroup, Params, Sequence, Span,
    Word,
};
use place_table::Places;
use std::alloc::{AllocError, Global};

fn place_or_none(decl: Option<Span>) -> u32
    ensures { result ≡ sites.place_or_none decl }
{
    match decl {
        None => 0,
        Some(decl) => decl.start,
    }
}

/// Where the name in the declaration of a name in use begins; 0 where it means nothing.
fn place_of(names: &Table, name: &Name) -> u32
    ensures { result ≡ spec.place_of names.now name.now }
{
    place_or_none(names.declaration_of(name))
}

/// The names of one declaration of interaction points.
fn declare_points(
    places: &mut Places<Declared>,
    names: &[Name],
    ip: InteractionPoint,
) -> Result<(), AllocError>
    ensures { OnOk result (places.new ≡ places.old ++ map (spec.ip_at ip) names.now) }
{
    for name in names {
        places.push(name.span.start, Declared::Ip(ip))?;
    }
    Ok(())
}

fn declare_ip(
    names: &Table,
    places: &mut Places<Declared>,
    decl: &IpDecl,
    external: bool,
) -> Result<(), AllocError>
    ensures { OnOk result (places.new ≡ places.old ++ spec.ip_declares names.now external decl.now) }
{
    let ip = InteractionPoint {
        channel: place_of(names, &decl.channel),
        role: place_of(names, &decl.role),
        external,
    };
    declare_points(places, decl.names.names.items(), ip)
}

pub fn declare_ips(
    names: &Table,
    places: &mut Places<Declared>,
    ips: &[IpDecl],
    external: bool,
) -> Result<(), AllocError>
    ensures { OnOk result (places.new ≡ places.old ++ flat_map (spec.ip_declares names.now external) ips.now) }
{
    for decl in ips {
        declare_ip(names, places, decl, external)?;
    }
    Ok(())
}

pub fn declare_header(
    names: &Table,
    places: &mut Places<Declared>,
    header: &Header,
) -> Result<(), AllocError>
    ensures { OnOk result (places.new ≡ places.old ++ spec.header_declares names.now header.now) }
{
    places.push(header.name.span.start, Declared::Header(header.attr))?;
    declare_ips(names, places, header.ips.items(), true)
}

/// Whether a role is one of those behind `by`.
fn is_among(names: &Table, roles: &[Name], role: &Name) -> bool
    ensures { result ≡ spec.is_among names.now roles.now role.now }
{
    for name in roles {
        if place_of(names, name) == role.span.start {
            return true;
        }
    }
    false
}

fn sender(names: &Table, roles: &[Name], role: &Name) -> Sender
    ensures { result ≡ spec.sender names.now roles.now role.now }
{
    Sender {
        role: role.span.start,
        may_send: is_among(names, roles, role),
    }
}

fn push_words(alloc: Global, names: &[Name], out: &mut Items<Word>) -> Result<(), AllocError>
    ensures { OnOk result (out.new ≡ out.old ++ map (λ x. x.word) names.now) }
{
    for name in names {
        out.push(name.word.copy(alloc)?)?;
    }
    Ok(())
}

fn push_groups(
    alloc: Global,
    groups: &[ParamGroup],
    out: &mut Items<Word>,
) -> Result<(), AllocError>
    ensures { OnOk result (out.new ≡ out.old ++ flat_map spec.group_words groups.now) }
{
    for group in groups {
        push_words(alloc, group.names.names.items(), out)?;
    }
    Ok(())
}

/// The names of parameters.
fn parameter_words(alloc: Global, params: &Option<Params>) -> Result<Items<Word>, AllocError>
    ensures { IfOk result (λ words. words ≡ spec.parameter_words params.now) }
{
    let mut words = Items::new(alloc);
    if let Some(params) = params {
        push_groups(alloc, params.groups.items(), &mut words)?;
    }
    Ok(words)
}

fn declare_interaction(
    alloc: Global,
    places: &mut Places<Declared>,
    first: Sender,
    second: Sender,
    inter: &Inter,
) -> Result<(), AllocError>
    ensures { OnOk result (places.new ≡ places.old ++ spec.inter_declares first second inter.now) }
{
    let parameters = parameter_words(alloc, &inter.params)?;
    places.push(
        inter.name.span.start,
        Declared::Interaction(Interaction {
            first,
            second,
            parameters,
        }),
    )
}

fn declare_interactions(
    alloc: Global,
    places: &mut Places<Declared>,
    first: Sender,
    second: Sender,
    inters: &[Inter],
) -> Result<(), AllocError>
    ensures { OnOk result (places.new ≡ places.old ++ flat_map (spec.inter_declares first second) inters.now) }
{
    for inter in inters {
        declare_interaction(alloc, places, first, second, inter)?;
    }
    Ok(())
}

fn declare_group(
    names: &Table,
    places: &mut Places<Declared>,
    channel: &Channel,
    group: &InterGroup,
) -> Result<(), AllocError>
    ensures { OnOk result (places.new ≡ places.old ++ spec.group_declares names.now channel.now group.now) }
{
    let roles = group.roles.names.items();
    let first = sender(names, roles, &channel.first_role);
    let second = sender(names, roles, &channel.second_role);
    declare_interactions(names.alloc, places, first, second, group.inters.items())
}

pub fn declare_groups(
    names: &Table,
    places: &mut Places<Declared>,
    channel: &Channel,
    groups: &[InterGroup],
) -> Result<(), AllocError>
    ensures { OnOk result (places.new ≡ places.old ++ flat_map (spec.group_declares names.now channel.now) groups.now) }
{
    for group in groups {
        declare_group(names, places, channel, group)?;
    }
    Ok(())
}
