//! States, module variables and interaction points, which have rising numbers.

ghost use Rattle.std.specs.Prelude.{◌≡◌, ◌+◌, length, IfOk, OnOk};
ghost use Rattle.std.specs.List.{flat_map};
ghost use Rattle.std.specs.Option.{option_copied};
ghost use Rattle.estelle_model.specs.Denoted.{numbered};
ghost use Rattle.meaning_table.specs.Known.{declare_all};
ghost use Rattle.meaning_table.specs.Kinds.{plainly};
ghost use Rattle.meaning_table.specs.declared.kinds.PlainKind.TheVariants.{State, Module, Ip};
ghost use Rattle.body_table.specs.Contributions.{states_of, modvar_names, modules_of, ip_names_in, ip_names_of};
ghost use Rattle.body_table.specs.Standings.{own_ip};

use crate::headers::header_ips;
use estelle_model::Meaning;
use estelle_tree::{Decl, IpDecl, ModvarDecl, Name, Sequence};
use meaning_table::{PlainKind, Table, behind, declare_plain};
use std::alloc::AllocError;

fn declare_states_of(table: &mut Table, first: u32, decl: &Decl) -> Result<u32, AllocError>
    ensures { IfOk result (λ next. (table.new ≡ declare_all table.old (numbered (plainly State) first (states_of decl.now))) × (next ≡ first + length (states_of decl.now))) }
{
    match decl {
        Decl::State { states, .. } => {
            declare_plain(table, PlainKind::State, states.names.items(), first)
        }
        _ => Ok(first),
    }
}

/// The states of a body.
pub fn declare_states(table: &mut Table, decls: &[Decl]) -> Result<(), AllocError>
    ensures { OnOk result (table.new ≡ declare_all table.old (numbered (plainly State) 0 (flat_map states_of decls.now))) }
{
    let mut number = 0;
    for decl in decls {
        number = declare_states_of(table, number, decl)?;
    }
    Ok(())
}

fn declare_modvars(table: &mut Table, first: u32, modvars: &[ModvarDecl]) -> Result<u32, AllocError>
    ensures { IfOk result (λ next. (table.new ≡ declare_all table.old (numbered (plainly Module) first (flat_map modvar_names modvars.now))) × (next ≡ first + length (flat_map modvar_names modvars.now))) }
{
    let mut number = first;
    for modvar in modvars {
        number = declare_plain(table, PlainKind::Module, modvar.names.names.items(), number)?;
    }
    Ok(number)
}

fn declare_modules_of(table: &mut Table, first: u32, decl: &Decl) -> Result<u32, AllocError>
    ensures { IfOk result (λ next. (table.new ≡ declare_all table.old (numbered (plainly Module) first (modules_of decl.now))) × (next ≡ first + length (modules_of decl.now))) }
{
    match decl {
        Decl::Modvar { modvars, .. } => declare_modvars(table, first, modvars.items()),
        _ => Ok(first),
    }
}

/// The module variables of a body.
pub fn declare_modules(table: &mut Table, decls: &[Decl]) -> Result<(), AllocError>
    ensures { OnOk result (table.new ≡ declare_all table.old (numbered (plainly Module) 0 (flat_map modules_of decls.now))) }
{
    let mut number = 0;
    for decl in decls {
        number = declare_modules_of(table, number, decl)?;
    }
    Ok(())
}

/// The interaction points of a header.
pub fn declare_header_ips(table: &mut Table, ips: &[IpDecl]) -> Result<(), AllocError>
    ensures { OnOk result (table.new ≡ declare_all table.old (numbered (plainly Ip) 0 (flat_map ip_names_in ips.now))) }
{
    let mut number = 0;
    for ip in ips {
        number = declare_plain(table, PlainKind::Ip, ip.names.names.items(), number)?;
    }
    Ok(())
}

fn declare_ip_names(
    table: &mut Table,
    header: Option<&Name>,
    first: u32,
    names: &[Name],
) -> Result<u32, AllocError>
    ensures { IfOk result (λ next. (table.new ≡ declare_all table.old (numbered (own_ip (option_copied header.entry)) first names.now)) × (next ≡ first + length names.now)) }
{
    let mut number = first;
    for name in names {
        let at = behind(behind(0, header_ips(table, header))?, number as usize)?;
        table.declare(name.span.start, Meaning::Ip(at))?;
        number = behind(number, 1)?;
    }
    Ok(number)
}

fn declare_ip_decls(
    table: &mut Table,
    header: Option<&Name>,
    first: u32,
    ips: &[IpDecl],
) -> Result<u32, AllocError>
    ensures { IfOk result (λ next. (table.new ≡ declare_all table.old (numbered (own_ip (option_copied header.entry)) first (flat_map ip_names_in ips.now))) × (next ≡ first + length (flat_map ip_names_in ips.now))) }
{
    let mut number = first;
    for ip in ips {
        number = declare_ip_names(table, header, number, ip.names.names.items())?;
    }
    Ok(number)
}

fn declare_ips_of(
    table: &mut Table,
    header: Option<&Name>,
    first: u32,
    decl: &Decl,
) -> Result<u32, AllocError>
    ensures { IfOk result (λ next. (table.new ≡ declare_all table.old (numbered (own_ip (option_copied header.entry)) first (ip_names_of decl.now))) × (next ≡ first + length (ip_names_of decl.now))) }
{
    match decl {
        Decl::Ip { ips, .. } => declare_ip_decls(table, header, first, ips.items()),
        _ => Ok(first),
    }
}

/// The interaction points of a body, behind those of its header.
pub fn declare_ips(
    table: &mut Table,
    header: Option<&Name>,
    decls: &[Decl],
) -> Result<(), AllocError>
    ensures { OnOk result (table.new ≡ declare_all table.old (numbered (own_ip (option_copied header.entry)) 0 (flat_map ip_names_of decls.now))) }
{
    let mut number = 0;
    for decl in decls {
        number = declare_ips_of(table, header, number, decl)?;
    }
    Ok(())
}
