//! The shapes of the types that stand in a text.

ghost use Rattle.std.specs.Prelude.{◌≡◌, ◌∷◌, [], ◌++◌, map, IfOk, OnOk};
ghost use Rattle.std.specs.List.{flat_map};
ghost use Rattle.estelle_model.specs.Types.{shape_of, whole};
ghost use Rattle.estelle_model.specs.Denoted.{typing};
ghost use Rattle.estelle_model.specs.Definitions.{domains_of};
ghost use Rattle.meaning_table.specs.Known.{meanings_of};
ghost use Rattle.type_shapes.specs.TypeNodes as spec;

use crate::shape::shape_of;
use estelle_model::{Denoter, Host};
use estelle_tree::{AnyDom, Clause, Items, Ordinal, Sequence, Spec, TypeDef, TypeExpr, TypedNames};
use meaning_table::{Table, ordinal_type, type_of, whole};
use pascal_values::Shape;
use std::alloc::AllocError;
use tree_visits::{Node, Visitor, Within, walk};

fn push(table: &Table, denoter: &Denoter, out: &mut Items<Shape>) -> Result<(), AllocError>
    ensures { OnOk result (out.new ≡ out.old ++ shape_of denoter.now ∷ []) }
{
    out.push(shape_of(table.alloc, denoter)?)
}

fn push_ordinal(table: &Table, ordinal: &Ordinal, out: &mut Items<Shape>) -> Result<(), AllocError>
    ensures { OnOk result (out.new ≡ out.old ++ spec.ordinal_node (meanings_of table.now) ordinal.now ∷ []) }
{
    let denoter = ordinal_type(table, ordinal)?;
    push(table, denoter.denoter(), out)
}

fn push_ordinals(
    table: &Table,
    ordinals: &[Ordinal],
    out: &mut Items<Shape>,
) -> Result<(), AllocError>
    ensures { OnOk result (out.new ≡ out.old ++ map (spec.ordinal_node (meanings_of table.now)) ordinals.now) }
{
    for ordinal in ordinals {
        push_ordinal(table, ordinal, out)?;
    }
    Ok(())
}

fn push_own(table: &Table, type_expr: &TypeExpr, out: &mut Items<Shape>) -> Result<(), AllocError>
    ensures { OnOk result (out.new ≡ out.old ++ shape_of ((typing type_expr.now).denotes (meanings_of table.now)) ∷ []) }
{
    let denoter = type_of(table, type_expr)?;
    push(table, denoter.denoter(), out)
}

/// A type, and those in it.
#[cycle(types)]
fn push_type(table: &Table, type_expr: &TypeExpr, out: &mut Items<Shape>) -> Result<(), AllocError>
    ensures { OnOk result (out.new ≡ out.old ++ spec.nodes_of (meanings_of table.now) type_expr.now) }
{
    push_own(table, type_expr, out)?;
    push_inner(table, type_expr, out)
}

/// Those in a type.
#[cycle(types)]
fn push_inner(table: &Table, type_expr: &TypeExpr, out: &mut Items<Shape>) -> Result<(), AllocError>
    ensures { OnOk result (out.new ≡ out.old ++ spec.nodes_inside (meanings_of table.now) type_expr.now) }
{
    match type_expr {
        TypeExpr::Ordinal(_) => Ok(()),
        TypeExpr::Array {
            indices,
            component,
            ..
        } => {
            push_ordinals(table, indices.items(), out)?;
            push_type(table, component.get(), out)
        }
        TypeExpr::Fields { fields, .. } => push_sections(table, fields.sections.items(), out),
        TypeExpr::Set { base, .. } => push_ordinal(table, base, out),
    }
}

#[cycle(types)]
fn push_sections(
    table: &Table,
    sections: &[TypedNames],
    out: &mut Items<Shape>,
) -> Result<(), AllocError>
    ensures { OnOk result (out.new ≡ out.old ++ flat_map (spec.nodes_behind (meanings_of table.now)) sections.now) }
{
    for section in sections {
        push_type(table, &section.type_expr, out)?;
    }
    Ok(())
}

fn push_definitions(
    table: &Table,
    defs: &[TypeDef],
    out: &mut Items<Shape>,
) -> Result<(), AllocError>
    ensures { OnOk result (out.new ≡ out.old ++ flat_map (spec.nodes_defined (meanings_of table.now)) defs.now) }
{
    for def in defs {
        push_type(table, &def.type_expr, out)?;
    }
    Ok(())
}

fn push_domains(table: &Table, domains: &[AnyDom], out: &mut Items<Shape>) -> Result<(), AllocError>
    ensures { OnOk result (out.new ≡ out.old ++ map (spec.domain_node (meanings_of table.now)) domains.now) }
{
    for each in domains {
        push_ordinal(table, &each.domain, out)?;
    }
    Ok(())
}

fn push_clause(table: &Table, clause: &Clause, out: &mut Items<Shape>) -> Result<(), AllocError>
    ensures { OnOk result (out.new ≡ out.old ++ map (spec.domain_node (meanings_of table.now)) (domains_of clause.now)) }
{
    match clause {
        Clause::Any { domains, .. } => push_domains(table, domains.items(), out),
        _ => Ok(()),
    }
}

/// The shapes that were seen so far.
#[derive(Drop)]
struct Seen<'t, 'a> {
    table: &'t Table<'a>,
    shapes: Items<Shape>,
}

impl Visitor for Seen<'_, '_> {
    ghost use Rattle.std.specs.Prelude.{◌++◌};
    ghost use Rattle.meaning_table.specs.Known.{meanings_of};
    ghost use Rattle.type_shapes.specs.TypeNodes.{nodes_seen};

    ghost step = { λ s v. record { table = s.table; shapes = s.shapes ++ nodes_seen (meanings_of s.table.now) v } };

    fn see(&mut self, _within: &Within, node: &Node) -> Result<(), AllocError> {
        match node {
            Node::Types { defs } => push_definitions(self.table, defs, &mut self.shapes),
            Node::Variables { vars } => push_sections(self.table, vars, &mut self.shapes),
            Node::Header(header) => {
                push_sections(self.table, header.exports.items(), &mut self.shapes)
            }
            Node::ClauseBegins(clause) => push_clause(self.table, clause, &mut self.shapes),
            _ => Ok(()),
        }
    }
}

fn push_whole(table: &Table, host: Host, out: &mut Items<Shape>) -> Result<(), AllocError>
    ensures { OnOk result (out.new ≡ out.old ++ shape_of (whole host) ∷ []) }
{
    let denoter = whole(table.alloc, host)?;
    push(table, denoter.denoter(), out)
}

fn required_shapes(table: &Table) -> Result<Items<Shape>, AllocError>
    ensures { IfOk result (λ shapes. shapes ≡ spec.required_shapes) }
{
    let mut shapes = Items::new(table.alloc);
    push_whole(table, Host::Integer, &mut shapes)?;
    push_whole(table, Host::Boolean, &mut shapes)?;
    push_whole(table, Host::Char, &mut shapes)?;
    Ok(shapes)
}

/// The shapes of the required types integer, boolean and char, and then of all types of a text.
pub fn all_shapes(table: &Table, tree: &Spec) -> Result<Items<Shape>, AllocError>
    ensures { IfOk result (λ shapes. shapes ≡ spec.shapes_of (meanings_of table.now) tree.now) }
{
    let mut seen = Seen {
        table,
        shapes: required_shapes(table)?,
    };
    walk(tree, &mut seen)?;
    let Seen { shapes, .. } = seen;
    Ok(shapes)
}
