//! Definitions and routines.

ghost use Rattle.std.specs.Prelude.{◌≡◌, OnOk};
ghost use Rattle.scope_rules.specs.DeclarationEvents as spec;
ghost use Rattle.scope_names_events.specs.Writing.{write};

use crate::node::{Node, chain, optional};
use crate::types::{inside, write_all_typed};
use crate::writer::Writer;
use estelle_tree::{
    BlockDecl, ConstDef, Formal, Formals, Name, NameList, Routine, RoutineForm, Sequence, TypeDef,
};
use scope_rules::{Denotes, Event, Inside, Need, ScopeForm};
use std::alloc::AllocError;

impl Node for ConstDef {
    ghost events = { spec.const_def };

    fn write(&self, out: &mut Writer) -> Result<(), AllocError> {
        self.value.write(out)?;
        out.declare(&self.name, Denotes::Constant, Inside::Nothing)
    }
}

impl Node for TypeDef {
    ghost events = { spec.type_def };

    fn write(&self, out: &mut Writer) -> Result<(), AllocError> {
        self.type_expr.write(out)?;
        out.declare(&self.name, Denotes::Type, inside(&self.type_expr))
    }
}

impl Node for BlockDecl {
    ghost events = { spec.block_decl_events };

    fn write(&self, out: &mut Writer) -> Result<(), AllocError> {
        match self {
            BlockDecl::Const { defs, .. } => chain(defs.items(), out),
            BlockDecl::Types { defs, .. } => chain(defs.items(), out),
            BlockDecl::Var { vars, .. } => write_all_typed(vars.items(), Denotes::Variable, out),
        }
    }
}

/// Variables of a named type.
pub fn write_parameters(
    names: &NameList,
    type_name: &Name,
    out: &mut Writer,
) -> Result<(), AllocError>
    ensures { OnOk result (out.new ≡ write out.old (spec.parameters names.now type_name.now)) }
{
    out.use_alone(Need::Type, type_name)?;
    let inside = Inside::Brought(type_name.span);
    out.declare_all(names.names.items(), Denotes::Variable, inside)
}

impl Node for Formal {
    ghost events = { spec.formal };

    fn write(&self, out: &mut Writer) -> Result<(), AllocError> {
        write_parameters(&self.names, &self.type_name, out)
    }
}

impl Node for Formals {
    ghost events = { spec.formals };

    fn write(&self, out: &mut Writer) -> Result<(), AllocError> {
        chain(self.formals.items(), out)
    }
}

fn routine_kind(form: &RoutineForm) -> Denotes
    ensures { result ≡ spec.routine_kind form.now }
{
    match form {
        RoutineForm::Procedure => Denotes::Procedure,
        RoutineForm::Function { .. } => Denotes::Function,
    }
}

fn write_result_type(form: &RoutineForm, out: &mut Writer) -> Result<(), AllocError>
    ensures { OnOk result (out.new ≡ write out.old (spec.result_type form.now)) }
{
    match form {
        RoutineForm::Procedure => Ok(()),
        RoutineForm::Function { result } => out.use_alone(Need::Type, result),
    }
}

/// The routine by its name alone.
pub fn write_routine_name(routine: &Routine, out: &mut Writer) -> Result<(), AllocError>
    ensures { OnOk result (out.new ≡ write out.old (spec.routine_declared routine.now)) }
{
    out.declare(&routine.name, routine_kind(&routine.form), Inside::Nothing)
}

impl Node for Routine {
    ghost events = { spec.routine };

    fn write(&self, out: &mut Writer) -> Result<(), AllocError> {
        out.push(Event::Open(ScopeForm::Inner))?;
        optional(&self.formals, out)?;
        write_result_type(&self.form, out)?;
        chain(self.decls.items(), out)?;
        self.body.write(out)?;
        out.push(Event::Close)
    }
}
