//! Definitions and routines.

ghost use Rattle.std.specs.Prelude.{◌≡◌, OnOk};
ghost use Rattle.estelle_printer.specs.DeclarationTokens as spec;
ghost use Rattle.estelle_printer.specs.Writing.{write};

use crate::node::{Node, chain, lines, optional, separated};
use crate::writer::Writer;
use estelle_tree::{
    BlockDecl, ConstDef, Formal, Formals, Kind, Routine, RoutineForm, Sequence, Stmts, TypeDef,
};
use std::alloc::AllocError;

impl Node for ConstDef {
    ghost tokens = { spec.const_def };

    fn write(&self, out: &mut Writer) -> Result<(), AllocError> {
        self.name.write(out)?;
        out.mark(Kind::Equal)?;
        self.value.write(out)
    }
}

impl Node for TypeDef {
    ghost tokens = { spec.type_def };

    fn write(&self, out: &mut Writer) -> Result<(), AllocError> {
        self.name.write(out)?;
        out.mark(Kind::Equal)?;
        self.type_expr.write(out)
    }
}

impl Node for BlockDecl {
    ghost tokens = { spec.block_decl_tokens };

    fn write(&self, out: &mut Writer) -> Result<(), AllocError> {
        match self {
            BlockDecl::Const { defs, .. } => {
                out.mark(Kind::Const)?;
                lines(defs.items(), out)
            }
            BlockDecl::Types { defs, .. } => {
                out.mark(Kind::Type)?;
                lines(defs.items(), out)
            }
            BlockDecl::Var { vars, .. } => {
                out.mark(Kind::Var)?;
                lines(vars.items(), out)
            }
        }
    }
}

/// `begin Stmts end ";"`
pub fn write_statement_part(stmts: &Stmts, out: &mut Writer) -> Result<(), AllocError>
    ensures { OnOk result (out.new ≡ write out.old (spec.statement_part stmts.now)) }
{
    out.mark(Kind::Begin)?;
    stmts.write(out)?;
    out.mark(Kind::End)?;
    out.mark(Kind::Semicolon)
}

impl Node for Formal {
    ghost tokens = { spec.formal };

    fn write(&self, out: &mut Writer) -> Result<(), AllocError> {
        out.flag(Kind::Var, self.is_var)?;
        self.names.write(out)?;
        out.mark(Kind::Colon)?;
        self.type_name.write(out)
    }
}

impl Node for Formals {
    ghost tokens = { spec.formals };

    fn write(&self, out: &mut Writer) -> Result<(), AllocError> {
        out.mark(Kind::OpenParenthesis)?;
        separated(Kind::Semicolon, self.formals.items(), out)?;
        out.mark(Kind::CloseParenthesis)
    }
}

fn kind_of_routine(form: &RoutineForm) -> Kind
    ensures { result ≡ spec.routine_kind form.now }
{
    match form {
        RoutineForm::Procedure => Kind::Procedure,
        RoutineForm::Function { .. } => Kind::Function,
    }
}

/// What a function has behind its parameters: `":" NAME`.
fn write_result_type(form: &RoutineForm, out: &mut Writer) -> Result<(), AllocError>
    ensures { OnOk result (out.new ≡ write out.old (spec.result_type form.now)) }
{
    match form {
        RoutineForm::Procedure => Ok(()),
        RoutineForm::Function { result } => {
            out.mark(Kind::Colon)?;
            result.write(out)
        }
    }
}

impl Node for Routine {
    ghost tokens = { spec.routine };

    fn write(&self, out: &mut Writer) -> Result<(), AllocError> {
        out.mark(kind_of_routine(&self.form))?;
        self.name.write(out)?;
        optional(&self.formals, out)?;
        write_result_type(&self.form, out)?;
        out.mark(Kind::Semicolon)?;
        chain(self.decls.items(), out)?;
        write_statement_part(&self.body, out)
    }
}
