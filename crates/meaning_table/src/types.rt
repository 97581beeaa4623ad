//! Types (ISO 7185, 6.4).

ghost use Rattle.std.specs.Prelude.{◌≡◌, map, IfOk};
ghost use Rattle.estelle_model.specs.Types as types;
ghost use Rattle.estelle_model.specs.declared.denoter.Denoter.TheVariants as denoter;
ghost use Rattle.estelle_model.specs.Constants.{host_of_const};
ghost use Rattle.estelle_model.specs.Denoted as spec;
ghost use Rattle.meaning_table.specs.Known.{meanings_of};

use crate::constants::{bound, host_of_const};
use crate::copying::{copy, push_repeated};
use crate::hosts::whole;
use crate::table::Table;
use estelle_model::{Denoter, Host, Meaning, Type, host_of, range_of};
use estelle_tree::{Boxed, Const, Items, Name, Ordinal, Sequence, TypeExpr, TypedNames};
use pascal_values::MAXINT;
use std::alloc::{AllocError, Global};

fn type_of_meaning(alloc: Global, meaning: &Meaning) -> Result<Type, AllocError>
    ensures { IfOk result (λ shared. shared ≡ spec.type_of_meaning meaning.now) }
{
    match meaning {
        Meaning::TypeName(denoter) => denoter.share(),
        _ => whole(alloc, Host::Integer),
    }
}

/// The type that a name names.
pub fn named_type(table: &Table, name: &Name) -> Result<Type, AllocError>
    ensures { IfOk result (λ shared. shared ≡ spec.named_type (meanings_of table.now) name.now) }
{
    type_of_meaning(table.alloc, table.meaning(name))
}

/// The host type of the values of an enumeration.
pub fn enumeration(names: &[Name]) -> Result<Host, AllocError>
    ensures { IfOk result (λ host. host ≡ spec.enumeration names.now) }
{
    match u32::try_from(names.len().saturating_sub(1)) {
        Ok(last) => Ok(Host::Enumeration { last }),
        Err(_) => Err(AllocError),
    }
}

fn subrange(table: &Table, low: &Const, high: &Const) -> Denoter
    ensures { result ≡ denoter.Ordinal (host_of_const (meanings_of table.now) low.now) (spec.bound (meanings_of table.now) low.now) (spec.bound (meanings_of table.now) high.now) }
{
    Denoter::Ordinal {
        host: host_of_const(table, low),
        low: bound(table, low),
        high: bound(table, high),
    }
}

/// An ordinal type.
pub fn ordinal_type(table: &Table, ordinal: &Ordinal) -> Result<Type, AllocError>
    ensures { IfOk result (λ shared. shared ≡ spec.ordinal_type (meanings_of table.now) ordinal.now) }
{
    match ordinal {
        Ordinal::Name(name) => named_type(table, name),
        Ordinal::Enumeration { names, .. } => whole(table.alloc, enumeration(names.names.items())?),
        Ordinal::Subrange { low, high, .. } => Type::of(table.alloc, subrange(table, low, high)),
    }
}

fn range_of_meaning(meaning: &Meaning) -> (i64, i64)
    ensures { result ≡ types.range_of (spec.type_of_meaning meaning.now) }
{
    match meaning {
        Meaning::TypeName(denoter) => range_of(denoter.denoter()),
        _ => (-MAXINT, MAXINT),
    }
}

/// The least and the greatest ordinal of an ordinal type, which takes no memory.
pub fn range_in(table: &Table, ordinal: &Ordinal) -> (i64, i64)
    ensures { result ≡ types.range_of (spec.ordinal_type (meanings_of table.now) ordinal.now) }
{
    match ordinal {
        Ordinal::Name(name) => range_of_meaning(table.meaning(name)),
        Ordinal::Enumeration { names, .. } => {
            (0, names.names.items().len().saturating_sub(1) as i64)
        }
        Ordinal::Subrange { low, high, .. } => (bound(table, low), bound(table, high)),
    }
}

/// A set of an ordinal type (ISO 7185, 6.4.3.4).
fn set_over(base: &Denoter) -> Denoter
    ensures { result ≡ spec.set_over base.now }
{
    let (low, high) = range_of(base);
    Denoter::Set {
        host: host_of(base),
        low,
        high,
    }
}

/// The array of one index over these components.
fn array_of(alloc: Global, index: &Denoter, item: Denoter) -> Result<Denoter, AllocError>
    ensures { IfOk result (λ d. d ≡ denoter.Array (types.range_of index.now).0 (types.range_of index.now).1 item) }
{
    let (low, high) = range_of(index);
    Ok(Denoter::Array {
        low,
        high,
        item: Boxed::new(alloc, item)?,
    })
}

/// The array of several indices over these components (ISO 7185, 6.4.3.2).
fn array_over(table: &Table, indices: &[Ordinal], item: Denoter) -> Result<Denoter, AllocError>
    ensures { IfOk result (λ d. d ≡ spec.array_over (map (spec.ordinal_type (meanings_of table.now)) indices.now) item) }
{
    let mut array = item;
    let mut i = indices.len();
    while 0 < i {
        i -= 1;
        let index = ordinal_type(table, &indices[i])?;
        array = array_of(table.alloc, index.denoter(), array)?;
    }
    Ok(array)
}

/// What a type expression denotes.
#[cycle(denoting)]
fn denotes(table: &Table, type_expr: &TypeExpr) -> Result<Denoter, AllocError>
    ensures { IfOk result (λ d. d ≡ (spec.typing type_expr.now).denotes (meanings_of table.now)) }
{
    match type_expr {
        TypeExpr::Ordinal(ordinal) => {
            let shared = ordinal_type(table, ordinal)?;
            copy(table.alloc, shared.denoter())
        }
        TypeExpr::Array {
            indices,
            component,
            ..
        } => {
            let item = denotes(table, component.get())?;
            array_over(table, indices.items(), item)
        }
        TypeExpr::Fields { fields, .. } => {
            let fields = denote_sections(table, fields.sections.items())?;
            Ok(Denoter::Fields(fields))
        }
        TypeExpr::Set { base, .. } => {
            let base = ordinal_type(table, base)?;
            Ok(set_over(base.denoter()))
        }
    }
}

/// The types of the fields of a record (ISO 7185, 6.4.3.3).
#[cycle(denoting)]
fn denote_sections(table: &Table, sections: &[TypedNames]) -> Result<Items<Denoter>, AllocError>
    ensures { IfOk result (λ ds. ds ≡ spec.section_types (meanings_of table.now) (map spec.section sections.now)) }
{
    let mut fields = Items::new(table.alloc);
    for section in sections {
        let field = denotes(table, &section.type_expr)?;
        push_repeated(
            table.alloc,
            field,
            section.names.names.items().len(),
            &mut fields,
        )?;
    }
    Ok(fields)
}

/// What a type expression denotes, shared where it is a name.
pub fn type_of(table: &Table, type_expr: &TypeExpr) -> Result<Type, AllocError>
    ensures { IfOk result (λ shared. shared ≡ (spec.typing type_expr.now).denotes (meanings_of table.now)) }
{
    match type_expr {
        TypeExpr::Ordinal(ordinal) => ordinal_type(table, ordinal),
        _ => Type::of(table.alloc, denotes(table, type_expr)?),
    }
}
