//! Statements.

ghost use Rattle.std.specs.Prelude.{◌≡◌, OnOk};
ghost use Rattle.estelle_tree.specs.declared.kind.Kind.TheVariants as k;
ghost use Rattle.estelle_tree.specs.Statements.{of_direction};
ghost use Rattle.estelle_printer.specs.Forms.{separated};
ghost use Rattle.estelle_printer.specs.StatementTokens as spec;
ghost use Rattle.estelle_printer.specs.Writing.{write};

use crate::node::{Node, separated};
use crate::writer::Writer;
use estelle_tree::{Args, Case, Direction, Ip, Kind, Sequence, Stmt, Stmts};
use std::alloc::AllocError;

impl Node for Ip {
    ghost tokens = { spec.ip };

    fn write(&self, out: &mut Writer) -> Result<(), AllocError> {
        self.name.write(out)?;
        match &self.part {
            Some(part) => {
                out.mark(Kind::Dot)?;
                part.write(out)
            }
            None => Ok(()),
        }
    }
}

/// `["(" Args ")"]`
fn write_args(args: &Option<Args>, out: &mut Writer) -> Result<(), AllocError>
    ensures { OnOk result (out.new ≡ write out.old (spec.may_be_args args.now)) }
{
    match args {
        Some(args) => {
            out.mark(Kind::OpenParenthesis)?;
            args.write(out)?;
            out.mark(Kind::CloseParenthesis)
        }
        None => Ok(()),
    }
}

fn kind_of_direction(direction: Direction) -> Kind
    ensures { result ≡ of_direction direction }
{
    match direction {
        Direction::To => Kind::To,
        Direction::Downto => Kind::Downto,
    }
}

#[cycle(statements)]
fn write_stmt(stmt: &Stmt, out: &mut Writer) -> Result<(), AllocError>
    ensures { OnOk result (out.new ≡ write out.old (spec.stmt stmt.now)) }
{
    match stmt {
        Stmt::Empty => Ok(()),
        Stmt::Assign {
            variable,
            value,
            ..
        } => {
            variable.write(out)?;
            out.mark(Kind::Becomes)?;
            value.write(out)
        }
        Stmt::Call { name, args, .. } => {
            name.write(out)?;
            write_args(args, out)
        }
        Stmt::Begin { stmts, .. } => {
            out.mark(Kind::Begin)?;
            write_stmts(stmts, out)?;
            out.mark(Kind::End)
        }
        Stmt::If {
            condition,
            then_part,
            else_part,
            ..
        } => {
            out.mark(Kind::If)?;
            condition.write(out)?;
            out.mark(Kind::Then)?;
            write_stmt(then_part.get(), out)?;
            match else_part {
                Some(else_part) => {
                    out.mark(Kind::Else)?;
                    write_stmt(else_part.get(), out)
                }
                None => Ok(()),
            }
        }
        Stmt::While {
            condition,
            body,
            ..
        } => {
            out.mark(Kind::While)?;
            condition.write(out)?;
            out.mark(Kind::Do)?;
            write_stmt(body.get(), out)
        }
        Stmt::Repeat {
            stmts,
            condition,
            ..
        } => {
            out.mark(Kind::Repeat)?;
            write_stmts(stmts, out)?;
            out.mark(Kind::Until)?;
            condition.write(out)
        }
        Stmt::Count {
            variable,
            first,
            direction,
            last,
            body,
            ..
        } => {
            out.mark(Kind::For)?;
            variable.write(out)?;
            out.mark(Kind::Becomes)?;
            first.write(out)?;
            out.mark(kind_of_direction(*direction))?;
            last.write(out)?;
            out.mark(Kind::Do)?;
            write_stmt(body.get(), out)
        }
        Stmt::Case {
            selector,
            cases,
            semicolon,
            ..
        } => {
            out.mark(Kind::Case)?;
            selector.write(out)?;
            out.mark(Kind::Of)?;
            write_cases(cases.items(), out)?;
            out.flag(Kind::Semicolon, *semicolon)?;
            out.mark(Kind::End)
        }
        Stmt::Init {
            modvar,
            body,
            args,
            ..
        } => {
            out.mark(Kind::Init)?;
            modvar.write(out)?;
            out.mark(Kind::With)?;
            body.write(out)?;
            write_args(args, out)
        }
        Stmt::Release { modvar, .. } => {
            out.mark(Kind::Release)?;
            modvar.write(out)
        }
        Stmt::Connect { first, second, .. } => {
            out.mark(Kind::Connect)?;
            first.write(out)?;
            out.mark(Kind::To)?;
            second.write(out)
        }
        Stmt::Disconnect { ip, .. } => {
            out.mark(Kind::Disconnect)?;
            ip.write(out)
        }
        Stmt::Attach {
            own,
            modvar,
            ip,
            ..
        } => {
            out.mark(Kind::Attach)?;
            own.write(out)?;
            out.mark(Kind::To)?;
            modvar.write(out)?;
            out.mark(Kind::Dot)?;
            ip.write(out)
        }
        Stmt::Detach { own, .. } => {
            out.mark(Kind::Detach)?;
            own.write(out)
        }
        Stmt::Output {
            ip,
            interaction,
            args,
            ..
        } => {
            out.mark(Kind::Output)?;
            ip.write(out)?;
            out.mark(Kind::Dot)?;
            interaction.write(out)?;
            write_args(args, out)
        }
    }
}

#[cycle(statements)]
fn write_stmts(stmts: &Stmts, out: &mut Writer) -> Result<(), AllocError>
    ensures { OnOk result (out.new ≡ write out.old (spec.stmts stmts.now)) }
{
    write_list(stmts.stmts.items(), out)
}

#[cycle(statements)]
fn write_list(stmts: &[Stmt], out: &mut Writer) -> Result<(), AllocError>
    ensures { OnOk result (out.new ≡ write out.old (separated k.Semicolon spec.stmt stmts.now)) }
{
    for (place, stmt) in stmts.iter().enumerate() {
        out.flag(Kind::Semicolon, place != 0)?;
        write_stmt(stmt, out)?;
    }
    Ok(())
}

#[cycle(statements)]
fn write_cases(cases: &[Case], out: &mut Writer) -> Result<(), AllocError>
    ensures { OnOk result (out.new ≡ write out.old (separated k.Semicolon spec.case_ cases.now)) }
{
    for (place, case) in cases.iter().enumerate() {
        out.flag(Kind::Semicolon, place != 0)?;
        write_case(case, out)?;
    }
    Ok(())
}

#[cycle(statements)]
fn write_case(case: &Case, out: &mut Writer) -> Result<(), AllocError>
    ensures { OnOk result (out.new ≡ write out.old (spec.case_ case.now)) }
{
    separated(Kind::Comma, case.labels.items(), out)?;
    out.mark(Kind::Colon)?;
    write_stmt(&case.body, out)
}

impl Node for Stmts {
    ghost tokens = { spec.stmts };

    fn write(&self, out: &mut Writer) -> Result<(), AllocError> {
        write_stmts(self, out)
    }
}
