//! Types and constants.

ghost use Rattle.std.specs.Prelude.{◌≡◌, ◌++◌, fold, IfOk, OnOk};
ghost use Rattle.std.specs.List.{flat_map};
ghost use Rattle.type_rules.specs.Types as types;
ghost use Rattle.type_rules.specs.TypeSites as spec;

use declaration_table::{Table, over_indices, with_fields};
use estelle_tree::{Const, Items, Ordinal, Sequence, TypeExpr, TypedNames};
use std::alloc::AllocError;
use type_rules::{
    Denoted, Site, as_array, is_no_base, is_no_index, is_no_subrange, no_fields, record_type,
    set_type,
};

/// A constant where it must have a value.
pub fn const_site(table: &Table, constant: &Const, out: &mut Items<Site>) -> Result<(), AllocError>
    ensures { OnOk result (out.new ≡ out.old ++ spec.const_site table.now constant.now) }
{
    out.push(Site::ConstantAt {
        at: constant.span(),
        value: table.const_value(constant),
    })
}

/// The bounds of a subrange, and the type itself.
pub fn ordinal_sites(
    table: &Table,
    ordinal: &Ordinal,
    out: &mut Items<Site>,
) -> Result<(), AllocError>
    ensures { OnOk result (out.new ≡ out.old ++ spec.ordinal_sites table.now ordinal.now) }
{
    let denoted = table.ordinal_type(ordinal);
    match ordinal {
        Ordinal::Name(name) => out.push(Site::TypeAt {
            at: name.span,
            is_at_fault: false,
            denoted,
        }),
        Ordinal::Enumeration { span, .. } => out.push(Site::TypeAt {
            at: *span,
            is_at_fault: false,
            denoted,
        }),
        Ordinal::Subrange { low, high, span } => {
            const_site(table, low, out)?;
            const_site(table, high, out)?;
            out.push(Site::TypeAt {
                at: *span,
                is_at_fault: is_no_subrange(table.const_value(low), table.const_value(high)),
                denoted,
            })
        }
    }
}

fn index_sites(table: &Table, indices: &[Ordinal], out: &mut Items<Site>) -> Result<(), AllocError>
    ensures { OnOk result (out.new ≡ out.old ++ flat_map (spec.ordinal_sites table.now) indices.now) }
{
    for index in indices {
        ordinal_sites(table, index, out)?;
    }
    Ok(())
}

/// Whether one of these is no index.
fn has_no_index(table: &Table, indices: &[Ordinal]) -> bool
    ensures { result ≡ spec.has_no_index table.now indices.now }
{
    for index in indices {
        if is_no_index(table.ordinal_type(index)) {
            return true;
        }
    }
    false
}

/// What a type expression denotes, and the sites of what stands in it and of it.
#[cycle(typing)]
pub fn typing(
    table: &Table,
    type_expr: &TypeExpr,
    out: &mut Items<Site>,
) -> Result<Denoted, AllocError>
    ensures denoted { IfOk result (λ d. d ≡ (spec.typing type_expr.now).denotes table.now) }
    ensures sites { OnOk result (out.new ≡ out.old ++ (spec.typing type_expr.now).sites table.now) }
{
    match type_expr {
        TypeExpr::Ordinal(ordinal) => {
            ordinal_sites(table, ordinal, out)?;
            Ok(table.ordinal_type(ordinal))
        }
        TypeExpr::Array {
            indices,
            component,
            span,
            ..
        } => {
            index_sites(table, indices.items(), out)?;
            let component = typing(table, component.get(), out)?;
            let denoted = as_array(*span, over_indices(table, component, indices.items()));
            out.push(Site::TypeAt {
                at: *span,
                is_at_fault: has_no_index(table, indices.items()),
                denoted,
            })?;
            Ok(denoted)
        }
        TypeExpr::Fields { fields, span, .. } => {
            let fields = sections(table, fields.sections.items(), out)?;
            let denoted = record_type(*span, fields);
            out.push(Site::TypeAt {
                at: *span,
                is_at_fault: false,
                denoted,
            })?;
            Ok(denoted)
        }
        TypeExpr::Set { base, span, .. } => {
            ordinal_sites(table, base, out)?;
            let base = table.ordinal_type(base);
            let denoted = set_type(*span, base);
            out.push(Site::TypeAt {
                at: *span,
                is_at_fault: is_no_base(base),
                denoted,
            })?;
            Ok(denoted)
        }
    }
}

/// The fields of these sections, and the sites of their types.
#[cycle(typing)]
fn sections(
    table: &Table,
    sections: &[TypedNames],
    out: &mut Items<Site>,
) -> Result<Denoted, AllocError>
    ensures denoted { IfOk result (λ d. d ≡ fold (λ d x. spec.with_section table.now d (spec.typed_names x)) types.no_fields sections.now) }
    ensures sites { OnOk result (out.new ≡ out.old ++ flat_map (λ x. (spec.typed_names x).1.sites table.now) sections.now) }
{
    let mut fields = no_fields();
    for section in sections {
        let field = typing(table, &section.type_expr, out)?;
        fields = with_fields(fields, section.names.names.items(), field);
    }
    Ok(fields)
}
