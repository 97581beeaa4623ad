//! Statements.

ghost use Rattle.std.specs.Prelude.{◌≡◌, OnOk};
ghost use Rattle.std.specs.List.{flat_map};
ghost use Rattle.scope_rules.specs.StatementEvents as spec;
ghost use Rattle.scope_names_events.specs.Writing.{write};

use crate::expressions::write_assigned;
use crate::node::{Node, chain, optional};
use crate::writer::{Writer, copy_name};
use estelle_tree::{Case, Ip, Name, Sequence, Stmt, Stmts};
use scope_rules::{Event, Need};
use std::alloc::AllocError;

/// An ip, which is used as the statement needs where it stands alone.
fn write_ip(ip: &Ip, alone: Need, out: &mut Writer) -> Result<(), AllocError>
    ensures { OnOk result (out.new ≡ write out.old (spec.ip_events alone ip.now)) }
{
    match &ip.part {
        None => out.use_alone(alone, &ip.name),
        Some(part) => out.use_member(Need::ModuleVariable, &ip.name, Need::Ip, part),
    }
}

/// The names of an `init`.
fn write_init(modvar: &Name, body: &Name, out: &mut Writer) -> Result<(), AllocError>
    ensures { OnOk result (out.new ≡ write out.old (spec.init_events modvar.now body.now)) }
{
    out.use_alone(Need::ModuleVariable, modvar)?;
    out.use_alone(Need::Body, body)?;
    let modvar = copy_name(out.alloc, modvar)?;
    let body = copy_name(out.alloc, body)?;
    out.push(Event::Init { modvar, body })
}

#[cycle(statements)]
fn write_stmt(stmt: &Stmt, out: &mut Writer) -> Result<(), AllocError>
    ensures { OnOk result (out.new ≡ write out.old (spec.stmt stmt.now)) }
{
    match stmt {
        Stmt::Empty => Ok(()),
        Stmt::Assign {
            variable,
            value,
            ..
        } => {
            write_assigned(variable, out)?;
            value.write(out)
        }
        Stmt::Call { name, args, .. } => {
            out.use_alone(Need::Procedure, name)?;
            optional(args, out)
        }
        Stmt::Begin { stmts, .. } => write_stmts(stmts, out),
        Stmt::If {
            condition,
            then_part,
            else_part,
            ..
        } => {
            condition.write(out)?;
            write_stmt(then_part.get(), out)?;
            match else_part {
                Some(else_part) => write_stmt(else_part.get(), out),
                None => Ok(()),
            }
        }
        Stmt::While {
            condition,
            body,
            ..
        } => {
            condition.write(out)?;
            write_stmt(body.get(), out)
        }
        Stmt::Repeat {
            stmts,
            condition,
            ..
        } => {
            write_stmts(stmts, out)?;
            condition.write(out)
        }
        Stmt::Count {
            variable,
            first,
            last,
            body,
            ..
        } => {
            out.use_alone(Need::Variable, variable)?;
            first.write(out)?;
            last.write(out)?;
            write_stmt(body.get(), out)
        }
        Stmt::Case {
            selector,
            cases,
            ..
        } => {
            selector.write(out)?;
            write_cases(cases.items(), out)
        }
        Stmt::Init {
            modvar,
            body,
            args,
            ..
        } => {
            write_init(modvar, body, out)?;
            optional(args, out)
        }
        Stmt::Release { modvar, .. } => out.use_alone(Need::ModuleVariable, modvar),
        Stmt::Connect { first, second, .. } => {
            write_ip(first, Need::Ip, out)?;
            write_ip(second, Need::Ip, out)
        }
        Stmt::Disconnect { ip, .. } => write_ip(ip, Need::Disconnected, out),
        Stmt::Attach {
            own,
            modvar,
            ip,
            ..
        } => {
            out.use_alone(Need::Ip, own)?;
            out.use_member(Need::ModuleVariable, modvar, Need::Ip, ip)
        }
        Stmt::Detach { own, .. } => out.use_alone(Need::Ip, own),
        Stmt::Output {
            ip,
            interaction,
            args,
            ..
        } => {
            out.use_member(Need::Ip, ip, Need::Interaction, interaction)?;
            optional(args, out)
        }
    }
}

#[cycle(statements)]
fn write_stmts(stmts: &Stmts, out: &mut Writer) -> Result<(), AllocError>
    ensures { OnOk result (out.new ≡ write out.old (spec.stmts stmts.now)) }
{
    write_list(stmts.stmts.items(), out)
}

#[cycle(statements)]
fn write_list(stmts: &[Stmt], out: &mut Writer) -> Result<(), AllocError>
    ensures { OnOk result (out.new ≡ write out.old (flat_map spec.stmt stmts.now)) }
{
    for stmt in stmts {
        write_stmt(stmt, out)?;
    }
    Ok(())
}

#[cycle(statements)]
fn write_cases(cases: &[Case], out: &mut Writer) -> Result<(), AllocError>
    ensures { OnOk result (out.new ≡ write out.old (flat_map spec.case_ cases.now)) }
{
    for case in cases {
        write_case(case, out)?;
    }
    Ok(())
}

#[cycle(statements)]
fn write_case(case: &Case, out: &mut Writer) -> Result<(), AllocError>
    ensures { OnOk result (out.new ≡ write out.old (spec.case_ case.now)) }
{
    chain(case.labels.items(), out)?;
    write_stmt(&case.body, out)
}

impl Node for Stmts {
    ghost events = { spec.stmts };

    fn write(&self, out: &mut Writer) -> Result<(), AllocError> {
        write_stmts(self, out)
    }
}
