//! Statements that no other statement stands in, and the head of a `for`.

ghost use Rattle.std.specs.Prelude.{◌≡◌, [], ◌∷◌, ◌++◌, OnOk};
ghost use Rattle.type_rules.specs.declared.sites.Site.TheVariants.{EstelleStatement};
ghost use Rattle.type_rules.specs.StatementSites as spec;

use crate::wanted::{assigned, called, fitting};
use declaration_table::Table;
use estelle_tree::{Args, Expr, Items, Name, Span, Variable};
use std::alloc::AllocError;
use type_rules::{Site, body_of, names_function, variable_type, where_ordinal};

/// The name of a variable or function is assigned.
fn assigns(table: &Table, at: Span, name: &Name, out: &mut Items<Site>) -> Result<(), AllocError>
    ensures { OnOk result (out.new ≡ out.old ++ spec.assigns table.now at name.now) }
{
    out.push(Site::Assigns {
        at,
        declared: table.declaration_of(name),
        is_function: names_function(table.known(name)),
    })
}

/// A value is assigned to a variable or function.
pub fn assignment(
    table: &Table,
    at: Span,
    node: &Variable,
    value: &Expr,
    out: &mut Items<Site>,
) -> Result<(), AllocError>
    ensures { OnOk result (out.new ≡ out.old ++ spec.assignment table.now at node.now value.now) }
{
    let type_ = assigned(table, node, out)?;
    fitting(table, type_, value, out)?;
    assigns(table, at, &node.name, out)
}

/// A procedure is called.
pub fn procedure_call(
    table: &Table,
    at: Span,
    name: &Name,
    args: &Option<Args>,
    out: &mut Items<Site>,
) -> Result<(), AllocError>
    ensures { OnOk result (out.new ≡ out.old ++ spec.procedure_call table.now at name.now args.now) }
{
    out.push(Site::CallsProcedure(at))?;
    out.push(Site::RoutineCalled {
        at: name.span,
        declared: table.declaration_of(name),
        body: body_of(table.known(name)),
    })?;
    called(table, name, args, out)
}

/// The variable of a `for`, which it assigns, and its bounds.
pub fn counting(
    table: &Table,
    at: Span,
    name: &Name,
    first: &Expr,
    last: &Expr,
    out: &mut Items<Site>,
) -> Result<(), AllocError>
    ensures { OnOk result (out.new ≡ out.old ++ spec.counting table.now at name.now first.now last.now) }
{
    let type_ = variable_type(table.known(name));
    out.push(Site::VariableNamed {
        at: name.span,
        declared: table.declaration_of(name),
    })?;
    out.push(Site::CountedBy {
        at: name.span,
        type_,
    })?;
    assigns(table, at, name, out)?;
    fitting(table, where_ordinal(type_), first, out)?;
    fitting(table, where_ordinal(type_), last, out)
}

/// A statement of Estelle.
pub fn estelle_statement(at: Span, out: &mut Items<Site>) -> Result<(), AllocError>
    ensures { OnOk result (out.new ≡ out.old ++ EstelleStatement at ∷ []) }
{
    out.push(Site::EstelleStatement(at))
}

/// A statement of Estelle with arguments: an `init` by its body, or an `output` by its interaction.
pub fn estelle_call(
    table: &Table,
    at: Span,
    name: &Name,
    args: &Option<Args>,
    out: &mut Items<Site>,
) -> Result<(), AllocError>
    ensures { OnOk result (out.new ≡ out.old ++ EstelleStatement at ∷ spec.called table.now name.now args.now) }
{
    estelle_statement(at, out)?;
    called(table, name, args, out)
}
