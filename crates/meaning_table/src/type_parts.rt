//! What types declare (ISO 7185, 6.4): the values of enumerations and the fields of records.

ghost use Rattle.std.specs.Prelude.{◌≡◌, ◌+◌, length, map, IfOk, OnOk};
ghost use Rattle.std.specs.List.{flat_map};
ghost use Rattle.estelle_model.specs.declared.meaning.Meaning.TheVariants.{Field};
ghost use Rattle.estelle_model.specs.Denoted as spec;
ghost use Rattle.meaning_table.specs.Known.{declare_all};
ghost use Rattle.meaning_table.specs.Kinds.{plain_meaning};
ghost use Rattle.meaning_table.specs.declared.kinds.PlainKind.TheVariants as plain;

use crate::declaring::declare_plain;
use crate::kinds::PlainKind;
use crate::table::Table;
use crate::types::enumeration;
use estelle_tree::{Name, Ordinal, Sequence, TypeExpr, TypedNames};
use std::alloc::AllocError;

fn declare_values(table: &mut Table, names: &[Name]) -> Result<(), AllocError>
    ensures { OnOk result (table.new ≡ declare_all table.old (spec.numbered (λ n known. plain_meaning (plain.Value (spec.enumeration names.now)) n) 0 names.now)) }
{
    let host = enumeration(names)?;
    declare_plain(table, PlainKind::Value(host), names, 0)?;
    Ok(())
}

/// The values of an enumeration.
pub fn declare_ordinal(table: &mut Table, ordinal: &Ordinal) -> Result<(), AllocError>
    ensures { OnOk result (table.new ≡ declare_all table.old (spec.ordinal_declares ordinal.now)) }
{
    match ordinal {
        Ordinal::Enumeration { names, .. } => declare_values(table, names.names.items()),
        Ordinal::Name(_) | Ordinal::Subrange { .. } => Ok(()),
    }
}

fn declare_ordinals(table: &mut Table, ordinals: &[Ordinal]) -> Result<(), AllocError>
    ensures { OnOk result (table.new ≡ declare_all table.old (flat_map spec.ordinal_declares ordinals.now)) }
{
    for ordinal in ordinals {
        declare_ordinal(table, ordinal)?;
    }
    Ok(())
}

/// The fields of a record.
fn declare_fields(table: &mut Table, sections: &[TypedNames]) -> Result<(), AllocError>
    ensures { OnOk result (table.new ≡ declare_all table.old (spec.sections_declare (λ known n t. Field n) 0 (map spec.section sections.now))) }
{
    let mut number = 0;
    for section in sections {
        number = declare_plain(table, PlainKind::Field, section.names.names.items(), number)?;
    }
    Ok(())
}

/// What stands in a type.
#[cycle(declaring)]
pub fn declare_type(table: &mut Table, type_expr: &TypeExpr) -> Result<(), AllocError>
    ensures { OnOk result (table.new ≡ declare_all table.old (spec.typing type_expr.now).declares) }
{
    match type_expr {
        TypeExpr::Ordinal(ordinal) => declare_ordinal(table, ordinal),
        TypeExpr::Array {
            indices,
            component,
            ..
        } => {
            declare_ordinals(table, indices.items())?;
            declare_type(table, component.get())
        }
        TypeExpr::Fields { fields, .. } => {
            declare_types(table, fields.sections.items())?;
            declare_fields(table, fields.sections.items())
        }
        TypeExpr::Set { base, .. } => declare_ordinal(table, base),
    }
}

/// What stands in the types of these sections.
#[cycle(declaring)]
pub fn declare_types(table: &mut Table, sections: &[TypedNames]) -> Result<(), AllocError>
    ensures { OnOk result (table.new ≡ declare_all table.old (spec.types_declare (map spec.section sections.now))) }
{
    for section in sections {
        declare_type(table, &section.type_expr)?;
    }
    Ok(())
}
