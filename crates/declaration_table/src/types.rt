//! Types: what they denote and declare.

ghost use Rattle.std.specs.Prelude.{◌≡◌, ◌+◌, ◌<◌, ◌^◌, pos, length, drop, fold, map, OnOk};
ghost use Rattle.std.specs.List.{flat_map};
ghost use Rattle.type_rules.specs.Types as types;
ghost use Rattle.type_rules.specs.Meanings.{declare_all, with_entity, valued};
ghost use Rattle.type_rules.specs.declared.meanings.Meaning.TheVariants.{ArrayType};
ghost use Rattle.type_rules.specs.TypeSites as spec;

use crate::table::Table;
use estelle_tree::{Name, Ordinal, Sequence, Span, TypeExpr, TypedNames};
use std::alloc::AllocError;
use type_rules::{
    Denoted, Host, Meaning, PascalType, Value, as_array, no_fields, over_index, record_type,
    set_type, with_field,
};

/// The array of several indices over these components.
pub fn over_indices(table: &Table, component: Denoted, indices: &[Ordinal]) -> Denoted
    ensures { result ≡ fold types.over_index component (map (spec.ordinal_type table.now) indices.now) }
{
    let mut array = component;
    for index in indices {
        array = over_index(array, table.ordinal_type(index));
    }
    array
}

/// The fields so far, with one of this type for each name.
pub fn with_fields(fields: Denoted, names: &[Name], field: Denoted) -> Denoted
    ensures { result ≡ fold (λ so_far x. types.with_field so_far field) fields names.now }
{
    let mut all = fields;
    for _name in names {
        all = with_field(all, field);
    }
    all
}

/// What a type expression denotes.
#[cycle(denoting)]
pub fn denotes(table: &Table, type_expr: &TypeExpr) -> Denoted
    ensures { result ≡ (spec.typing type_expr.now).denotes table.now }
{
    match type_expr {
        TypeExpr::Ordinal(ordinal) => table.ordinal_type(ordinal),
        TypeExpr::Array {
            indices,
            component,
            span,
            ..
        } => {
            let component = denotes(table, component.get());
            as_array(*span, over_indices(table, component, indices.items()))
        }
        TypeExpr::Fields { fields, span, .. } => record_type(
            *span,
            denote_sections(table, fields.sections.items()),
        ),
        TypeExpr::Set { base, span, .. } => set_type(*span, table.ordinal_type(base)),
    }
}

/// The fields of these sections.
#[cycle(denoting)]
fn denote_sections(table: &Table, sections: &[TypedNames]) -> Denoted
    ensures { result ≡ fold (λ d x. spec.with_section table.now d (spec.typed_names x)) types.no_fields sections.now }
{
    let mut fields = no_fields();
    for section in sections {
        let field = denotes(table, &section.type_expr);
        fields = with_fields(fields, section.names.names.items(), field);
    }
    fields
}

/// The type alone that a type expression denotes.
#[tactic(auto, using(crate::proofs::Typing::types, estelle_tree::specs::declared::tree::type_expr::TypeExpr::the_lemmas), unfolding(type_rules::specs::Types::as_type, type_rules::specs::Types::record_type))]
pub fn type_of(table: &Table, type_expr: &TypeExpr) -> Option<PascalType>
    ensures { result ≡ spec.type_in (spec.typing type_expr.now) table.now }
{
    match type_expr {
        TypeExpr::Ordinal(ordinal) => table.ordinal_type(ordinal).type_,
        TypeExpr::Array { span, .. } => Some(PascalType::Array { at: *span }),
        TypeExpr::Fields { span, .. } => Some(PascalType::Fields { at: *span }),
        TypeExpr::Set { base, span, .. } => set_type(*span, table.ordinal_type(base)).type_,
    }
}

/// A value of an enumeration that stands there, by its ordinal.
fn enumerated_meaning(at: Span, ordinal: usize) -> Meaning
    requires { ordinal < 2 ^ 63 }
    ensures { result ≡ valued (Host.Enumeration at) (pos ordinal) }
{
    let host = Host::Enumeration { at };
    let ordinal = ordinal as i64;
    Meaning::Constant {
        host: Some(host),
        value: Some(Value { host, ordinal }),
    }
}

/// The values of an enumeration that stands there.
fn declare_values(table: &mut Table, at: Span, values: &[Name]) -> Result<(), AllocError>
    ensures { OnOk result (table.new ≡ declare_all table.old (spec.enumerated at 0 values.now)) }
{
    for (i, value) in values.iter().enumerate() {
        let meaning = enumerated_meaning(at, i);
        table.declare_as(value.span.start, meaning)?;
    }
    Ok(())
}

pub fn declare_ordinal(table: &mut Table, ordinal: &Ordinal) -> Result<(), AllocError>
    ensures { OnOk result (table.new ≡ declare_all table.old (spec.ordinal_declares ordinal.now)) }
{
    match ordinal {
        Ordinal::Enumeration { names, span } => declare_values(table, *span, names.names.items()),
        Ordinal::Name(_) | Ordinal::Subrange { .. } => Ok(()),
    }
}

fn declare_ordinals(table: &mut Table, ordinals: &[Ordinal]) -> Result<(), AllocError>
    ensures { OnOk result (table.new ≡ declare_all table.old (flat_map spec.ordinal_declares ordinals.now)) }
{
    for ordinal in ordinals {
        declare_ordinal(table, ordinal)?;
    }
    Ok(())
}

/// An array type that stands there.
fn declare_array(
    table: &mut Table,
    at: Span,
    index: &Ordinal,
    component: Option<PascalType>,
) -> Result<(), AllocError>
    ensures { OnOk result (table.new ≡ with_entity table.old at.start (spec.meaning_only (ArrayType (spec.index_of index.now table.old) component))) }
{
    let index = table.ordinal_type(index).type_;
    table.declare_as(at.start, Meaning::ArrayType { index, component })
}

/// The indices behind one of them.
fn behind(indices: &[Ordinal], i: usize) -> &[Ordinal]
    requires { i < length indices.now }
    ensures { result.now ≡ drop (i + 1) indices.now }
{
    &indices[i + 1..]
}

/// The type of the components behind an index, with the further indices.
fn behind_index(table: &Table, more: &[Ordinal], component: &TypeExpr) -> Option<PascalType>
    ensures { result ≡ spec.behind_index more.now (spec.type_in (spec.typing component.now)) table.now }
{
    match more {
        [] => type_of(table, component),
        [next, ..] => Some(PascalType::Array { at: next.span() }),
    }
}

/// Where the array of these indices is declared.
fn array_place(at: Span, indices: &[Ordinal]) -> Span
    ensures { result ≡ spec.array_place at indices.now }
{
    match indices {
        [] => at,
        [index, ..] => index.span(),
    }
}

/// The array types of several indices.
fn declare_arrays(
    table: &mut Table,
    whole: Span,
    indices: &[Ordinal],
    component: &TypeExpr,
) -> Result<(), AllocError>
    ensures { OnOk result (table.new ≡ declare_all table.old (spec.arrays whole indices.now (spec.type_in (spec.typing component.now)))) }
{
    let mut at = whole;
    for i in 0..indices.len() {
        let more = behind(indices, i);
        let inner = behind_index(table, more, component);
        declare_array(table, at, &indices[i], inner)?;
        at = array_place(at, more);
    }
    Ok(())
}

/// Names that are variables of the type that an expression denotes.
fn declare_variables(
    table: &mut Table,
    names: &[Name],
    type_expr: &TypeExpr,
) -> Result<(), AllocError>
    ensures { OnOk result (table.new ≡ declare_all table.old (spec.variables (spec.type_in (spec.typing type_expr.now)) names.now)) }
{
    for name in names {
        let type_ = type_of(table, type_expr);
        table.declare_as(name.span.start, Meaning::Variable(type_))?;
    }
    Ok(())
}

#[cycle(declaring)]
pub fn declare_type(table: &mut Table, type_expr: &TypeExpr) -> Result<(), AllocError>
    ensures { OnOk result (table.new ≡ declare_all table.old (spec.typing type_expr.now).declares) }
{
    match type_expr {
        TypeExpr::Ordinal(ordinal) => declare_ordinal(table, ordinal),
        TypeExpr::Array {
            indices,
            component,
            span,
            ..
        } => {
            declare_ordinals(table, indices.items())?;
            declare_type(table, component.get())?;
            declare_arrays(table, *span, indices.items(), component.get())
        }
        TypeExpr::Fields { fields, .. } => declare_sections(table, fields.sections.items()),
        TypeExpr::Set { base, .. } => declare_ordinal(table, base),
    }
}

/// Names with their type: variables, exported variables or fields.
#[cycle(declaring)]
pub fn declare_section(table: &mut Table, section: &TypedNames) -> Result<(), AllocError>
    ensures { OnOk result (table.new ≡ declare_all table.old (spec.section_declares (spec.typed_names section.now))) }
{
    declare_type(table, &section.type_expr)?;
    declare_variables(table, section.names.names.items(), &section.type_expr)
}

#[cycle(declaring)]
pub fn declare_sections(table: &mut Table, sections: &[TypedNames]) -> Result<(), AllocError>
    ensures { OnOk result (table.new ≡ declare_all table.old (flat_map (λ x. spec.section_declares (spec.typed_names x)) sections.now)) }
{
    for section in sections {
        declare_section(table, section)?;
    }
    Ok(())
}
