//! The types of var parameters (ISO 7185, 6.6.3.3).

ghost use Rattle.std.specs.Prelude.{◌≡◌, ◌++◌, replicate, IfOk, OnOk};
ghost use Rattle.std.specs.List.{flat_map};
ghost use Rattle.estelle_model.specs.Definitions as spec;
ghost use Rattle.meaning_table.specs.Known.{meanings_of};
ghost use Rattle.body_compiler.specs.Whole.{reference_types};

use estelle_model::Type;
use estelle_tree::{Formal, Formals, Items, Routine, Sequence};
use meaning_table::{Table, named_type};
use std::alloc::{AllocError, Global};

fn formals_of(formals: &Option<Formals>) -> &[Formal]
    ensures { result.now ≡ spec.formals_of formals.now }
{
    match formals {
        None => &[],
        Some(formals) => formals.formals.items(),
    }
}

fn push_types(types: &mut Items<Type>, type_: &Type, count: usize) -> Result<(), AllocError>
    ensures { OnOk result (types.new ≡ types.old ++ replicate count type_.now) }
{
    for _ in 0..count {
        types.push(type_.share()?)?;
    }
    Ok(())
}

/// The types of a formal parameter, if it is a var parameter.
fn push_references(
    types: &mut Items<Type>,
    table: &Table,
    formal: &Formal,
) -> Result<(), AllocError>
    ensures { OnOk result (types.new ≡ types.old ++ reference_types (meanings_of table.now) formal.now) }
{
    if !formal.is_var {
        return Ok(());
    }
    let type_ = named_type(table, &formal.type_name)?;
    push_types(types, &type_, formal.names.names.items().len())
}

/// The types of a routine's var parameters, in order.
pub fn references(
    alloc: Global,
    table: &Table,
    routine: &Routine,
) -> Result<Items<Type>, AllocError>
    ensures { IfOk result (λ types. types ≡ flat_map (reference_types (meanings_of table.now)) (spec.formals_of routine.now.formals)) }
{
    let mut types = Items::new(alloc);
    for formal in formals_of(&routine.formals) {
        push_references(&mut types, table, formal)?;
    }
    Ok(types)
}
