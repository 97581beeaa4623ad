//! Definitions, parameters and routines.

ghost use Rattle.std.specs.Prelude.{◌≡◌, ◌++◌, OnOk, IfOk};
ghost use Rattle.std.specs.List.{flat_map};
ghost use Rattle.type_rules.specs.Meanings.{declare_all};
ghost use Rattle.type_rules.specs.SpecificationSites as spec;

use crate::node::{Node, chain};
use crate::table::Table;
use crate::types::{declare_section, declare_type, denotes};
use estelle_tree::{
    BlockDecl, ConstDef, Formal, Formals, Items, Name, ParamGroup, Params, Routine, RoutineForm,
    Sequence, TypeDef, TypedNames,
};
use std::alloc::AllocError;
use type_rules::{Entity, Meaning, Parameter, constant};

impl Node for ConstDef {
    ghost declares = { λ x. (spec.const_def x).declares };

    fn declare(&self, table: &mut Table) -> Result<(), AllocError> {
        let value = table.const_value(&self.value);
        table.declare_as(self.name.span.start, constant(value))
    }
}

impl Node for TypeDef {
    ghost declares = { λ x. (spec.type_def x).declares };

    fn declare(&self, table: &mut Table) -> Result<(), AllocError> {
        declare_type(table, &self.type_expr)?;
        let denoted = denotes(table, &self.type_expr);
        table.declare_as(self.name.span.start, Meaning::TypeName(denoted))
    }
}

impl Node for TypedNames {
    ghost declares = { λ x. (spec.var_decl x).declares };

    fn declare(&self, table: &mut Table) -> Result<(), AllocError> {
        declare_section(table, self)
    }
}

impl Node for BlockDecl {
    ghost declares = { λ x. (spec.block_decl_part x).declares };

    fn declare(&self, table: &mut Table) -> Result<(), AllocError> {
        match self {
            BlockDecl::Const { defs, .. } => chain(defs.items(), table),
            BlockDecl::Types { defs, .. } => chain(defs.items(), table),
            BlockDecl::Var { vars, .. } => chain(vars.items(), table),
        }
    }
}

/// Names that are variables of a named type.
fn declare_named(table: &mut Table, names: &[Name], type_name: &Name) -> Result<(), AllocError>
    ensures { OnOk result (table.new ≡ declare_all table.old (spec.named_variables names.now type_name.now)) }
{
    for name in names {
        let type_ = table.named_type(type_name);
        table.declare_as(name.span.start, Meaning::Variable(type_))?;
    }
    Ok(())
}

impl Node for Formal {
    ghost declares = { spec.formal_variables };

    fn declare(&self, table: &mut Table) -> Result<(), AllocError> {
        declare_named(table, self.names.names.items(), &self.type_name)
    }
}

impl Node for ParamGroup {
    ghost declares = { spec.group_variables };

    fn declare(&self, table: &mut Table) -> Result<(), AllocError> {
        declare_named(table, self.names.names.items(), &self.type_name)
    }
}

/// One parameter for each name.
fn push_parameters(
    table: &Table,
    is_var: bool,
    names: &[Name],
    type_name: &Name,
    out: &mut Items<Parameter>,
) -> Result<(), AllocError>
    ensures { OnOk result (out.new ≡ out.old ++ spec.parameters table.now is_var names.now type_name.now) }
{
    let type_ = table.named_type(type_name);
    for _name in names {
        out.push(Parameter { is_var, type_ })?;
    }
    Ok(())
}

fn push_formals(
    table: &Table,
    formals: &[Formal],
    out: &mut Items<Parameter>,
) -> Result<(), AllocError>
    ensures { OnOk result (out.new ≡ out.old ++ flat_map (spec.formal_one table.now) formals.now) }
{
    for formal in formals {
        push_parameters(
            table,
            formal.is_var,
            formal.names.names.items(),
            &formal.type_name,
            out,
        )?;
    }
    Ok(())
}

/// The parameters of a routine.
fn formal_parameters(
    table: &Table,
    formals: &Option<Formals>,
) -> Result<Items<Parameter>, AllocError>
    ensures { IfOk result (λ parameters. parameters ≡ spec.formal_parameters table.now formals.now) }
{
    let mut parameters = Items::new(table.alloc);
    if let Some(formals) = formals {
        push_formals(table, formals.formals.items(), &mut parameters)?;
    }
    Ok(parameters)
}

fn push_groups(
    table: &Table,
    groups: &[ParamGroup],
    out: &mut Items<Parameter>,
) -> Result<(), AllocError>
    ensures { OnOk result (out.new ≡ out.old ++ flat_map (spec.group_one table.now) groups.now) }
{
    for group in groups {
        push_parameters(
            table,
            false,
            group.names.names.items(),
            &group.type_name,
            out,
        )?;
    }
    Ok(())
}

/// The parameters of an interaction or a header.
pub fn value_parameters(
    table: &Table,
    params: &Option<Params>,
) -> Result<Items<Parameter>, AllocError>
    ensures { IfOk result (λ parameters. parameters ≡ spec.value_parameters table.now params.now) }
{
    let mut parameters = Items::new(table.alloc);
    if let Some(params) = params {
        push_groups(table, params.groups.items(), &mut parameters)?;
    }
    Ok(parameters)
}

/// The parameters as variables.
pub fn declare_params(table: &mut Table, params: &Option<Params>) -> Result<(), AllocError>
    ensures { OnOk result (table.new ≡ declare_all table.old (spec.params_declare params.now)) }
{
    match params {
        None => Ok(()),
        Some(params) => chain(params.groups.items(), table),
    }
}

fn declare_formals(table: &mut Table, formals: &Option<Formals>) -> Result<(), AllocError>
    ensures { OnOk result (table.new ≡ declare_all table.old (flat_map spec.formal_variables (spec.formals_of formals.now))) }
{
    match formals {
        None => Ok(()),
        Some(formals) => chain(formals.formals.items(), table),
    }
}

fn routine_meaning(table: &Table, form: &RoutineForm, body: u32) -> Meaning
    ensures { result ≡ spec.routine_meaning body form.now table.now }
{
    match form {
        RoutineForm::Procedure => Meaning::Procedure { body },
        RoutineForm::Function { result } => Meaning::Function {
            type_: table.named_type(result),
            body,
        },
    }
}

/// A routine, in the specification or body that begins there.
pub fn declare_routine(table: &mut Table, routine: &Routine, body: u32) -> Result<(), AllocError>
    ensures { OnOk result (table.new ≡ declare_all table.old (spec.routine body routine.now).declares) }
{
    let meaning = routine_meaning(table, &routine.form, body);
    let parameters = formal_parameters(table, &routine.formals)?;
    table.declare(
        routine.name.span.start,
        Entity {
            meaning,
            parameters,
        },
    )?;
    declare_formals(table, &routine.formals)?;
    chain(routine.decls.items(), table)
}
