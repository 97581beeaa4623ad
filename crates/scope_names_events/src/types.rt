//! Constants and types.

ghost use Rattle.std.specs.Prelude.{◌≡◌, ◌∷◌, [], OnOk, drop};
ghost use Rattle.std.specs.List.{flat_map};
ghost use Rattle.scope_rules.specs.declared.declaration.Denotes.TheVariants as d;
ghost use Rattle.scope_rules.specs.declared.event.Event.TheVariants.{Declare};
ghost use Rattle.scope_rules.specs.TypeEvents as spec;
ghost use Rattle.scope_names_events.specs.Writing.{write};

use crate::node::{Node, chain};
use crate::writer::Writer;
use estelle_tree::{Const, Ordinal, Sequence, Span, TypeExpr, TypedNames};
use scope_rules::{Denotes, Event, Inside, Need, ScopeForm};
use std::alloc::AllocError;

impl Node for Const {
    ghost events = { spec.const_events };

    fn write(&self, out: &mut Writer) -> Result<(), AllocError> {
        match self {
            Const::Number { .. } | Const::Char { .. } => Ok(()),
            Const::Name { name, .. } => out.use_alone(Need::Constant, name),
        }
    }
}

impl Node for Ordinal {
    ghost events = { spec.ordinal_events };

    fn write(&self, out: &mut Writer) -> Result<(), AllocError> {
        match self {
            Ordinal::Name(name) => out.use_alone(Need::Type, name),
            Ordinal::Enumeration { names, .. } => out.declare_all(
                names.names.items(),
                Denotes::Constant,
                Inside::Nothing,
            ),
            Ordinal::Subrange { low, high, .. } => {
                low.write(out)?;
                high.write(out)
            }
        }
    }
}

fn inside_ordinal(ordinal: &Ordinal) -> Inside
    ensures { result ≡ spec.inside_ordinal ordinal.now }
{
    match ordinal {
        Ordinal::Name(name) => Inside::Brought(name.span),
        Ordinal::Enumeration { .. } | Ordinal::Subrange { .. } => Inside::Nothing,
    }
}

/// What a type brings behind a dot.
pub fn inside(type_expr: &TypeExpr) -> Inside
    ensures { result ≡ spec.inside type_expr.now }
{
    match type_expr {
        TypeExpr::Ordinal(ordinal) => inside_ordinal(ordinal),
        TypeExpr::Array { span, .. } | TypeExpr::Fields { span, .. } => Inside::At(*span),
        TypeExpr::Set { .. } => Inside::Nothing,
    }
}

/// The array type that stands there, and the inner ones of its further indices.
fn write_arrays(
    whole: Span,
    more: &[Ordinal],
    components: Inside,
    out: &mut Writer,
) -> Result<(), AllocError>
    ensures { OnOk result (out.new ≡ write out.old (spec.array_events whole more.now components)) }
{
    let mut at = whole;
    for index in more {
        let inner = index.span();
        out.push(Event::Array {
            at,
            components: Inside::At(inner),
        })?;
        at = inner;
    }
    out.push(Event::Array { at, components })
}

/// All but the first.
fn behind_first(indices: &[Ordinal]) -> &[Ordinal]
    ensures { result.now ≡ drop 1 indices.now }
{
    match indices {
        [] => indices,
        [_, rest @ ..] => rest,
    }
}

/// The fields of a record, without their types.
fn write_fields(sections: &[TypedNames], out: &mut Writer) -> Result<(), AllocError>
    ensures { OnOk result (out.new ≡ write out.old (flat_map (λ x. Declare (spec.section x).0.names d.Field (spec.section x).1.0 ∷ []) sections.now)) }
{
    for section in sections {
        let inside = inside(&section.type_expr);
        out.declare_all(section.names.names.items(), Denotes::Field, inside)?;
    }
    Ok(())
}

#[cycle(types)]
fn write_type(type_expr: &TypeExpr, out: &mut Writer) -> Result<(), AllocError>
    ensures { OnOk result (out.new ≡ write out.old (spec.type_events type_expr.now)) }
{
    match type_expr {
        TypeExpr::Ordinal(ordinal) => ordinal.write(out),
        TypeExpr::Array {
            indices,
            component,
            span,
            ..
        } => {
            chain(indices.items(), out)?;
            write_type(component.get(), out)?;
            let components = inside(component.get());
            write_arrays(*span, behind_first(indices.items()), components, out)
        }
        TypeExpr::Fields { fields, span, .. } => {
            write_section_types(fields.sections.items(), out)?;
            out.push(Event::Open(ScopeForm::Inner))?;
            write_fields(fields.sections.items(), out)?;
            out.push(Event::Keep(*span))
        }
        TypeExpr::Set { base, .. } => base.write(out),
    }
}

#[cycle(types)]
fn write_section_types(sections: &[TypedNames], out: &mut Writer) -> Result<(), AllocError>
    ensures { OnOk result (out.new ≡ write out.old (flat_map (λ x. (spec.section x).1.1) sections.now)) }
{
    for section in sections {
        write_type(&section.type_expr, out)?;
    }
    Ok(())
}

impl Node for TypeExpr {
    ghost events = { spec.type_events };

    fn write(&self, out: &mut Writer) -> Result<(), AllocError> {
        write_type(self, out)
    }
}

/// Names with their type, declared as what they denote.
pub fn write_typed(typed: &TypedNames, denotes: Denotes, out: &mut Writer) -> Result<(), AllocError>
    ensures { OnOk result (out.new ≡ write out.old (spec.typed_names denotes typed.now)) }
{
    typed.type_expr.write(out)?;
    let inside = inside(&typed.type_expr);
    out.declare_all(typed.names.names.items(), denotes, inside)
}

pub fn write_all_typed(
    typed: &[TypedNames],
    denotes: Denotes,
    out: &mut Writer,
) -> Result<(), AllocError>
    ensures { OnOk result (out.new ≡ write out.old (flat_map (spec.typed_names denotes) typed.now)) }
{
    for names in typed {
        write_typed(names, denotes, out)?;
    }
    Ok(())
}
