//! The specification as a body.

ghost use Rattle.std.specs.Prelude.{◌≡◌, ◌++◌, IfOk, OnOk};
ghost use Rattle.std.specs.List.{flat_map};
ghost use Rattle.estelle_model.specs.Denoted.{section_types};
ghost use Rattle.estelle_model.specs.Bodies as spec;
ghost use Rattle.meaning_table.specs.Known.{meanings_of};
ghost use Rattle.body_table.specs.Contributions.{variables_of};
ghost use Rattle.body_table.specs.Standings.{root};

use estelle_model::Type;
use estelle_tree::{Decl, Items, Sequence, Spec};
use meaning_table::{Table, push_types};
use std::alloc::AllocError;

fn push_types_of(table: &Table, decl: &Decl, out: &mut Items<Type>) -> Result<(), AllocError>
    ensures { OnOk result (out.new ≡ out.old ++ section_types (meanings_of table.now) (variables_of decl.now)) }
{
    match decl {
        Decl::Var { vars, .. } => push_types(table, vars.items(), out),
        _ => Ok(()),
    }
}

/// The types of the variables that a body itself declares.
pub fn push_variable_types(
    table: &Table,
    decls: &[Decl],
    out: &mut Items<Type>,
) -> Result<(), AllocError>
    ensures { OnOk result (out.new ≡ out.old ++ section_types (meanings_of table.now) (flat_map variables_of decls.now)) }
{
    for decl in decls {
        push_types_of(table, decl, out)?;
    }
    Ok(())
}

/// The types of the variables of an instance of the specification.
pub fn variable_types(table: &Table, tree: &Spec) -> Result<Items<Type>, AllocError>
    ensures { IfOk result (λ types. types ≡ spec.variable_types (meanings_of table.now) (root tree.now)) }
{
    let mut types = Items::new(table.alloc);
    push_variable_types(table, tree.parts.decls.items(), &mut types)?;
    Ok(types)
}
