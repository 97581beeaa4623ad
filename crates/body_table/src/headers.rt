//! Module headers (ISO/IEC 9074).

ghost use Rattle.std.specs.Prelude.{◌≡◌, ◌++◌, length, map, replicate, option_map, IfOk, OnOk};
ghost use Rattle.std.specs.Option.{option_copied};
ghost use Rattle.estelle_model.specs.Bodies as spec;
ghost use Rattle.estelle_model.specs.Definitions as definitions;
ghost use Rattle.estelle_model.specs.Denoted.{section, section_types};
ghost use Rattle.meaning_table.specs.Known.{meanings_of, declare_all};
ghost use Rattle.body_table.specs.Standings.{header_variables};
ghost use Rattle.body_table.specs.Headers.{header_means, instance_declares};

use crate::channels::{declare_params, param_types};
use crate::numbered::declare_header_ips;
use estelle_model::{Attribute, Heading, InteractionPoint, Meaning, Role, Type};
use estelle_tree::{Attr, Disc, Head, Header, IpDecl, Items, Name, Sequence, SysAttr, TypedNames};
use meaning_table::{
    Alone, Base, Table, VariableKind, behind, declare_sections, declare_types, push_types,
};
use std::alloc::AllocError;

fn is_common(by_default: bool, disc: Option<Disc>) -> bool
    ensures { result ≡ spec.is_common by_default disc }
{
    match disc {
        None => by_default,
        Some(Disc::Individual { .. }) => false,
        Some(Disc::Common { .. }) => true,
    }
}

/// Whether interaction points share the common queue where they name none.
pub fn default_of(mut heads: &[Head]) -> bool
    ensures { result ≡ spec.default_of heads.entry.now }
{
    while let [head, rest @ ..] = heads {
        if let Head::Default { disc, .. } = head {
            return is_common(false, Some(*disc));
        }
        heads = rest;
    }
    false
}

/// The attribute of a specification, as it is written.
pub fn system_attribute(attr: SysAttr) -> Attribute
    ensures { result ≡ spec.system_attribute attr }
{
    match attr {
        SysAttr::Systemprocess { .. } => Attribute::Systemprocess,
        SysAttr::Systemactivity { .. } => Attribute::Systemactivity,
    }
}

fn attribute_of(attr: Attr) -> Attribute
    ensures { result ≡ spec.attribute_of attr }
{
    match attr {
        Attr::SysAttr(attr) => system_attribute(attr),
        Attr::Process { .. } => Attribute::Process,
        Attr::Activity { .. } => Attribute::Activity,
    }
}

fn attribute(attr: Option<Attr>) -> Option<Attribute>
    ensures { result ≡ option_map spec.attribute_of attr }
{
    match attr {
        None => None,
        Some(attr) => Some(attribute_of(attr)),
    }
}

fn channel_at(meaning: &Meaning) -> u32
    ensures { result ≡ definitions.channel_at meaning.now }
{
    match meaning {
        Meaning::Channel(at) => *at,
        _ => 0,
    }
}

fn role_at(meaning: &Meaning) -> Role
    ensures { result ≡ definitions.role_at meaning.now }
{
    match meaning {
        Meaning::Role(role) => *role,
        _ => Role::First,
    }
}

/// Each of the interaction points that are declared together.
fn interaction_point(
    table: &Table,
    by_default: bool,
    external: bool,
    ip: &IpDecl,
) -> InteractionPoint
    ensures { result ≡ spec.interaction_point (meanings_of table.now) by_default external ip.now }
{
    InteractionPoint {
        channel: channel_at(table.meaning(&ip.channel)),
        role: role_at(table.meaning(&ip.role)),
        common: is_common(by_default, ip.disc),
        external,
    }
}

fn push_points(
    out: &mut Items<InteractionPoint>,
    point: InteractionPoint,
    count: usize,
) -> Result<(), AllocError>
    ensures { OnOk result (out.new ≡ out.old ++ replicate count point) }
{
    for _ in 0..count {
        out.push(point)?;
    }
    Ok(())
}

/// The interaction points that are declared in a header, or in a body.
pub fn push_interaction_points(
    table: &Table,
    by_default: bool,
    external: bool,
    ips: &[IpDecl],
    out: &mut Items<InteractionPoint>,
) -> Result<(), AllocError>
    ensures { OnOk result (out.new ≡ out.old ++ spec.interaction_points (meanings_of table.now) by_default external ips.now) }
{
    for ip in ips {
        push_points(
            out,
            interaction_point(table, by_default, external, ip),
            ip.names.names.items().len(),
        )?;
    }
    Ok(())
}

fn export_types(table: &Table, exports: &[TypedNames]) -> Result<Items<Type>, AllocError>
    ensures { IfOk result (λ types. types ≡ section_types (meanings_of table.now) (map section exports.now)) }
{
    let mut types = Items::new(table.alloc);
    push_types(table, exports, &mut types)?;
    Ok(types)
}

fn header_meaning<'a>(
    table: &Table<'a>,
    by_default: bool,
    header: &Header,
) -> Result<Meaning<'a>, AllocError>
    ensures { IfOk result (λ m. m ≡ header_means by_default header.now (meanings_of table.now)) }
{
    let mut ips = Items::new(table.alloc);
    push_interaction_points(table, by_default, true, header.ips.items(), &mut ips)?;
    Ok(Meaning::Header(Heading {
        at: header.name.span.start,
        attribute: attribute(header.attr),
        parameters: param_types(table, &header.params)?,
        exports: export_types(table, header.exports.items())?,
        ips,
    }))
}

/// The parameters, the exported variables and the interaction points of a header.
fn declare_instance(table: &mut Table, header: &Header) -> Result<(), AllocError>
    ensures { OnOk result (table.new ≡ declare_all table.old (instance_declares header.now)) }
{
    declare_types(table, header.exports.items())?;
    let number = declare_params(table, VariableKind::Own, &header.params)?;
    let exports = header.exports.items();
    declare_sections(table, &Alone, VariableKind::Exported, number, exports)?;
    declare_header_ips(table, header.ips.items())
}

/// A header.
pub fn declare_header(
    table: &mut Table,
    by_default: bool,
    header: &Header,
) -> Result<(), AllocError>
    ensures { OnOk result (table.new ≡ declare_all table.old (spec.header_declares by_default header.now)) }
{
    declare_instance(table, header)?;
    let meaning = header_meaning(table, by_default, header)?;
    table.declare(header.name.span.start, meaning)
}

fn ips_of(meaning: &Meaning) -> usize
    ensures { result ≡ length (spec.heading_of meaning.now).ips }
{
    match meaning {
        Meaning::Header(heading) => heading.ips.len(),
        _ => 0,
    }
}

/// How many interaction points the header of a body has.
pub fn header_ips(table: &Table, header: Option<&Name>) -> usize
    ensures { result ≡ length (spec.heading (meanings_of table.now) (option_copied header.entry)).ips }
{
    match header {
        None => 0,
        Some(name) => ips_of(table.meaning(name)),
    }
}

fn variables_of(meaning: &Meaning) -> Result<u32, AllocError>
    ensures { IfOk result (λ count. count ≡ length ((spec.heading_of meaning.now).parameters ++ (spec.heading_of meaning.now).exports)) }
{
    match meaning {
        Meaning::Header(heading) => {
            behind(behind(0, heading.parameters.len())?, heading.exports.len())
        }
        _ => Ok(0),
    }
}

/// Behind the variables of the header of a body.
#[derive(Drop)]
pub struct BehindHeader<'t> {
    pub header: Option<&'t Name>,
}

impl<'t> Base for BehindHeader<'t> {
    ghost base = { λ b. header_variables (option_copied b.header) };

    fn count(&self, table: &Table) -> Result<u32, AllocError> {
        match self.header {
            None => Ok(0),
            Some(name) => variables_of(table.meaning(name)),
        }
    }
}
