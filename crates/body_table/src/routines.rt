//! Procedures and functions (ISO 7185, 6.6).

ghost use Rattle.std.specs.Prelude.{◌≡◌, ◌+◌, ◌++◌, replicate, IfOk, OnOk};
ghost use Rattle.std.specs.List.{flat_map};
ghost use Rattle.estelle_model.specs.declared.meaning.Passing.TheVariants as passing;
ghost use Rattle.estelle_model.specs.Denoted.{sections_declare, count_names};
ghost use Rattle.estelle_model.specs.Definitions as spec;
ghost use Rattle.meaning_table.specs.Known.{meanings_of, declare_all};
ghost use Rattle.meaning_table.specs.Kinds.{numbered_behind, variables};
ghost use Rattle.body_table.specs.Formals as parts;
ghost use Rattle.meaning_table.specs.declared.kinds.VariableKind.TheVariants.{Local, Var};

use crate::definitions::{declare_locals, local_types};
use crate::node::chain;
use estelle_model::{Meaning, Passing, Routine as Called, Statements, Type};
use estelle_tree::{Formal, Formals, Items, Routine, RoutineForm, Sequence};
use meaning_table::{Alone, Table, VariableKind, declare_section, named_type};
use std::alloc::AllocError;

fn formals_of(formals: &Option<Formals>) -> &[Formal]
    ensures { result.now ≡ spec.formals_of formals.now }
{
    match formals {
        None => &[],
        Some(formals) => formals.formals.items(),
    }
}

/// A formal parameter, if it is a value parameter.
fn declare_value(table: &mut Table, number: u32, formal: &Formal) -> Result<u32, AllocError>
    ensures { IfOk result (λ next. (table.new ≡ declare_all table.old (sections_declare (numbered_behind Local (λ m. 0)) number (parts.value_section formal.now))) × (next ≡ number + count_names (parts.value_section formal.now))) }
{
    if formal.is_var {
        return Ok(number);
    }
    declare_section(table, &Alone, VariableKind::Local, number, formal)
}

/// The value parameters as variables. It answers the number behind them.
fn declare_value_formals(table: &mut Table, formals: &[Formal]) -> Result<u32, AllocError>
    ensures { IfOk result (λ next. (table.new ≡ declare_all table.old (sections_declare (numbered_behind Local (λ m. 0)) 0 (flat_map parts.value_section formals.now))) × (next ≡ count_names (flat_map parts.value_section formals.now))) }
{
    let mut number = 0;
    for formal in formals {
        number = declare_value(table, number, formal)?;
    }
    Ok(number)
}

/// A formal parameter, if it is a var parameter.
fn declare_var(table: &mut Table, number: u32, formal: &Formal) -> Result<u32, AllocError>
    ensures { IfOk result (λ next. (table.new ≡ declare_all table.old (sections_declare (numbered_behind Var (λ m. 0)) number (parts.var_section formal.now))) × (next ≡ number + count_names (parts.var_section formal.now))) }
{
    if formal.is_var {
        return declare_section(table, &Alone, VariableKind::Var, number, formal);
    }
    Ok(number)
}

/// The var parameters.
fn declare_var_formals(table: &mut Table, formals: &[Formal]) -> Result<(), AllocError>
    ensures { OnOk result (table.new ≡ declare_all table.old (sections_declare (numbered_behind Var (λ m. 0)) 0 (flat_map parts.var_section formals.now))) }
{
    let mut number = 0;
    for formal in formals {
        number = declare_var(table, number, formal)?;
    }
    Ok(())
}

fn push_by_place(count: usize, out: &mut Items<Passing>) -> Result<(), AllocError>
    ensures { OnOk result (out.new ≡ out.old ++ replicate count passing.ByPlace) }
{
    for _ in 0..count {
        out.push(Passing::ByPlace)?;
    }
    Ok(())
}

fn push_by_value(denoter: &Type, count: usize, out: &mut Items<Passing>) -> Result<(), AllocError>
    ensures { OnOk result (out.new ≡ out.old ++ replicate count (passing.ByValue denoter.now)) }
{
    for _ in 0..count {
        out.push(Passing::ByValue(denoter.share()?))?;
    }
    Ok(())
}

fn push_passings(table: &Table, formal: &Formal, out: &mut Items<Passing>) -> Result<(), AllocError>
    ensures { OnOk result (out.new ≡ out.old ++ spec.passings (meanings_of table.now) formal.now) }
{
    let count = formal.names.names.items().len();
    if formal.is_var {
        return push_by_place(count, out);
    }
    let denoter = named_type(table, &formal.type_name)?;
    push_by_value(&denoter, count, out)
}

fn passings(table: &Table, formals: &[Formal]) -> Result<Items<Passing>, AllocError>
    ensures { IfOk result (λ ps. ps ≡ flat_map (spec.passings (meanings_of table.now)) formals.now) }
{
    let mut passings = Items::new(table.alloc);
    for formal in formals {
        push_passings(table, formal, &mut passings)?;
    }
    Ok(passings)
}

fn result_type(table: &Table, form: &RoutineForm) -> Result<Option<Type>, AllocError>
    ensures { IfOk result (λ t. t ≡ spec.result_type (meanings_of table.now) form.now) }
{
    match form {
        RoutineForm::Procedure => Ok(None),
        RoutineForm::Function { result } => Ok(Some(named_type(table, result)?)),
    }
}

/// What the name of a routine means.
fn routine_meaning<'a>(table: &Table<'a>, routine: &'a Routine) -> Result<Meaning<'a>, AllocError>
    ensures { IfOk result (λ m. m ≡ spec.routine_meaning routine.now (meanings_of table.now)) }
{
    Ok(Meaning::Called(Called {
        parameters: passings(table, formals_of(&routine.formals))?,
        locals: local_types(table, routine.decls.items())?,
        result: result_type(table, &routine.form)?,
        body: Statements::of(&routine.body),
    }))
}

/// The value parameters and the routine's own variables, and the var parameters.
fn declare_variables(table: &mut Table, routine: &Routine) -> Result<(), AllocError>
    ensures { OnOk result (table.new ≡ declare_all (declare_all table.old (sections_declare (variables Local) 0 (spec.value_formals routine.now ++ spec.local_variables routine.now.decls))) (sections_declare (variables Var) 0 (spec.var_formals routine.now))) }
{
    let formals = formals_of(&routine.formals);
    let number = declare_value_formals(table, formals)?;
    declare_locals(table, &Alone, number, routine.decls.items())?;
    declare_var_formals(table, formals)
}

/// A routine with what stands in it.
pub fn declare_routine<'a>(table: &mut Table<'a>, routine: &'a Routine) -> Result<(), AllocError>
    ensures { OnOk result (table.new ≡ declare_all table.old (spec.routine_declares routine.now)) }
{
    chain(routine.decls.items(), table)?;
    declare_variables(table, routine)?;
    let meaning = routine_meaning(table, routine)?;
    table.declare(routine.name.span.start, meaning)
}
