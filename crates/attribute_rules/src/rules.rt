//! The rules, visit by visit.

ghost use Rattle.std.specs.Prelude.{◌≡◌};
ghost use Rattle.std.specs.List.{flat_map};
ghost use Rattle.attribute_rules.specs.AttributeRules as spec;
ghost use Rattle.visit_rules.specs.Breaches.{noted_all};

use crate::attributes::{attribute_around, is_activity, is_inner, is_process, is_system};
use estelle_tree::{Attr, ModvarDecl, Sequence};
use module_table::ModuleTable;
use scope_rules::Breach;
use tree_visits::{Node, Within};
use visit_rules::{Rules, noted_each, noted_where};

/// Which module variables a body may not have, by its attribute and that of the variable's header (ISO/IEC 9074: module
/// attributes).
#[derive(Clone, Copy)]
pub enum Matrix {
    /// Rule 11: inside an attributed module there are no systems.
    SystemInside,
    /// Rule 12: inside an unattributed module there are no processes and no activities.
    InnerOutside,
    /// Rule 13: inside an attributed module there are only attributed modules.
    UnattributedInside,
    /// Rule 14: inside activities there are only activities.
    ProcessInActivity,
}

fn is_broken(rule: Matrix, body: Option<Attr>, header: Option<Attr>) -> bool
    ensures { result ≡ spec.is_broken rule body header }
{
    match rule {
        Matrix::SystemInside => body.is_some() && is_system(header),
        Matrix::InnerOutside => body.is_none() && is_inner(header),
        Matrix::UnattributedInside => body.is_some() && header.is_none(),
        Matrix::ProcessInActivity => is_activity(body) && is_process(header),
    }
}

fn number_of(rule: Matrix) -> u8
    ensures { result ≡ spec.number_of rule }
{
    match rule {
        Matrix::SystemInside => 11,
        Matrix::InnerOutside => 12,
        Matrix::UnattributedInside => 13,
        Matrix::ProcessInActivity => 14,
    }
}

fn noted_variable(
    table: &ModuleTable,
    body: Option<Attr>,
    rule: Matrix,
    variables: &ModvarDecl,
    first: Option<Breach>,
) -> Option<Breach>
    ensures { result ≡ noted_all first (spec.variable_breaches table.now body rule variables.now) }
{
    if is_broken(rule, body, table.attribute_of(&variables.header)) {
        return noted_each(number_of(rule), variables.names.names.items(), first);
    }
    first
}

/// Of the module variables of a body those that a rule forbids.
fn noted_variables(
    table: &ModuleTable,
    body: Option<Attr>,
    rule: Matrix,
    modvars: &[ModvarDecl],
    first: Option<Breach>,
) -> Option<Breach>
    ensures { result ≡ noted_all first (flat_map (spec.variable_breaches table.now body rule) modvars.now) }
{
    let mut all = first;
    for variables in modvars {
        all = noted_variable(table, body, rule, variables, all);
    }
    all
}

/// The rules 10 to 14.
#[derive(Clone, Copy)]
pub struct AttributeRules<'t> {
    pub table: &'t ModuleTable,
}

impl<'t> Rules for AttributeRules<'t> {
    ghost breaches = { λ rules. spec.breaches rules.table.now };

    fn judge(&self, within: &Within, node: &Node, first: Option<Breach>) -> Option<Breach> {
        match node {
            Node::Transitions { span } => {
                let body = attribute_around(self.table, within);
                noted_where(body.is_none(), 10, *span, first)
            }
            Node::ModuleVariables { modvars } => {
                let body = attribute_around(self.table, within);
                let first = noted_variables(self.table, body, Matrix::SystemInside, modvars, first);
                let first = noted_variables(self.table, body, Matrix::InnerOutside, modvars, first);
                let first = noted_variables(
                    self.table,
                    body,
                    Matrix::UnattributedInside,
                    modvars,
                    first,
                );
                noted_variables(self.table, body, Matrix::ProcessInActivity, modvars, first)
            }
            _ => first,
        }
    }
}
