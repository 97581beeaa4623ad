//! What the declarations of a body declare.

ghost use Rattle.std.specs.Prelude.{◌≡◌, ◌+◌, map, IfOk, OnOk};
ghost use Rattle.std.specs.List.{flat_map};
ghost use Rattle.std.specs.Option.{option_copied};
ghost use Rattle.estelle_model.specs.Bodies as spec;
ghost use Rattle.estelle_model.specs.Denoted.{sections_declare, count_names};
ghost use Rattle.meaning_table.specs.Known.{declare_all};
ghost use Rattle.meaning_table.specs.Kinds.{numbered_behind};
ghost use Rattle.meaning_table.specs.declared.kinds.VariableKind.TheVariants.{Own};
ghost use Rattle.body_table.specs.Contributions.{names_of, variables_of};
ghost use Rattle.body_table.specs.Standings.{header_variables, decls_declare};

use crate::headers::{BehindHeader, declare_header};
use crate::node::{Node, chain};
use crate::numbered::{declare_ips, declare_modules, declare_states};
use crate::routines::declare_routine;
use estelle_model::Meaning;
use estelle_tree::{Decl, Name, Sequence, StatesetDef};
use meaning_table::{Table, VariableKind, declare_sections, declare_types, states_named};
use std::alloc::AllocError;

fn declare_statesets(table: &mut Table, sets: &[StatesetDef]) -> Result<(), AllocError>
    ensures { OnOk result (table.new ≡ declare_all table.old (map spec.stateset_declares sets.now)) }
{
    for set in sets {
        let states = states_named(table, set.states.names.items())?;
        table.declare(set.name.span.start, Meaning::StateSet(states))?;
    }
    Ok(())
}

fn declare_names_of<'a>(
    table: &mut Table<'a>,
    by_default: bool,
    decl: &'a Decl,
) -> Result<(), AllocError>
    ensures { OnOk result (table.new ≡ declare_all table.old (names_of by_default decl.now)) }
{
    match decl {
        Decl::Const { defs, .. } => chain(defs.items(), table),
        Decl::Types { defs, .. } => chain(defs.items(), table),
        Decl::Channel(channel) => channel.declare(table),
        Decl::Header(header) => declare_header(table, by_default, header),
        Decl::Var { vars, .. } => declare_types(table, vars.items()),
        Decl::Stateset { sets, .. } => declare_statesets(table, sets.items()),
        Decl::Routine(routine) => declare_routine(table, routine),
        Decl::Body(_) | Decl::Ip { .. } | Decl::Modvar { .. } | Decl::State { .. } => Ok(()),
    }
}

fn declare_names<'a>(
    table: &mut Table<'a>,
    by_default: bool,
    decls: &'a [Decl],
) -> Result<(), AllocError>
    ensures { OnOk result (table.new ≡ declare_all table.old (flat_map (names_of by_default) decls.now)) }
{
    for decl in decls {
        declare_names_of(table, by_default, decl)?;
    }
    Ok(())
}

fn declare_variables_of(
    table: &mut Table,
    base: &BehindHeader,
    first: u32,
    decl: &Decl,
) -> Result<u32, AllocError>
    ensures { IfOk result (λ next. (table.new ≡ declare_all table.old (sections_declare (numbered_behind Own (header_variables (option_copied base.now.header))) first (variables_of decl.now))) × (next ≡ first + count_names (variables_of decl.now))) }
{
    match decl {
        Decl::Var { vars, .. } => {
            declare_sections(table, base, VariableKind::Own, first, vars.items())
        }
        _ => Ok(first),
    }
}

/// The variables of a body, behind those of its header.
fn declare_variables(
    table: &mut Table,
    base: &BehindHeader,
    decls: &[Decl],
) -> Result<(), AllocError>
    ensures { OnOk result (table.new ≡ declare_all table.old (sections_declare (numbered_behind Own (header_variables (option_copied base.now.header))) 0 (flat_map variables_of decls.now))) }
{
    let mut number = 0;
    for decl in decls {
        number = declare_variables_of(table, base, number, decl)?;
    }
    Ok(())
}

/// What the declarations of a body declare, but for the bodies among them.
pub fn declare_decls<'a>(
    table: &mut Table<'a>,
    by_default: bool,
    header: Option<&Name>,
    decls: &'a [Decl],
) -> Result<(), AllocError>
    ensures { OnOk result (table.new ≡ declare_all table.old (decls_declare by_default (option_copied header.entry) decls.now)) }
{
    declare_states(table, decls)?;
    declare_names(table, by_default, decls)?;
    declare_variables(table, &BehindHeader { header }, decls)?;
    declare_modules(table, decls)?;
    declare_ips(table, header, decls)
}
