//! Blocks, clauses and groups of clauses.

ghost use Rattle.std.specs.Prelude.{◌≡◌, OnOk};
ghost use Rattle.std.specs.List.{flat_map};
ghost use Rattle.estelle_printer.specs.ClauseTokens as spec;
ghost use Rattle.estelle_printer.specs.Writing.{write};

use crate::declarations::write_statement_part;
use crate::node::{Node, chain, optional, separated};
use crate::writer::Writer;
use estelle_tree::{
    AnyDom, Block, Clause, DelayHigh, Group, Kind, Label, NameList, NextState, Sequence, TransBody,
};
use std::alloc::AllocError;

impl Node for Label {
    ghost tokens = { spec.label };

    fn write(&self, out: &mut Writer) -> Result<(), AllocError> {
        out.mark(Kind::NameWord)?;
        self.name.write(out)?;
        out.mark(Kind::Colon)
    }
}

impl Node for Block {
    ghost tokens = { spec.block };

    fn write(&self, out: &mut Writer) -> Result<(), AllocError> {
        optional(&self.label, out)?;
        chain(self.decls.items(), out)?;
        optional(&self.late_label, out)?;
        write_statement_part(&self.body, out)
    }
}

impl Node for AnyDom {
    ghost tokens = { spec.any_dom };

    fn write(&self, out: &mut Writer) -> Result<(), AllocError> {
        self.names.write(out)?;
        out.mark(Kind::Colon)?;
        self.domain.write(out)
    }
}

impl Node for NextState {
    ghost tokens = { spec.next_state_tokens };

    fn write(&self, out: &mut Writer) -> Result<(), AllocError> {
        match self {
            NextState::Name(name) => name.write(out),
            NextState::Same => out.mark(Kind::Same),
        }
    }
}

/// `["(" Names ")"]`
fn write_when_params(params: &Option<NameList>, out: &mut Writer) -> Result<(), AllocError>
    ensures { OnOk result (out.new ≡ write out.old (spec.when_params params.now)) }
{
    match params {
        Some(names) => {
            out.mark(Kind::OpenParenthesis)?;
            names.write(out)?;
            out.mark(Kind::CloseParenthesis)
        }
        None => Ok(()),
    }
}

/// `["," (Expr | "*")]`
fn write_delay_high(high: &Option<DelayHigh>, out: &mut Writer) -> Result<(), AllocError>
    ensures { OnOk result (out.new ≡ write out.old (spec.may_be_high high.now)) }
{
    match high {
        Some(DelayHigh::Expr(expr)) => {
            out.mark(Kind::Comma)?;
            expr.write(out)
        }
        Some(DelayHigh::Star) => {
            out.mark(Kind::Comma)?;
            out.mark(Kind::Star)
        }
        None => Ok(()),
    }
}

impl Node for Clause {
    ghost tokens = { spec.clause_tokens };

    fn write(&self, out: &mut Writer) -> Result<(), AllocError> {
        match self {
            Clause::From { states, .. } => {
                out.mark(Kind::From)?;
                states.write(out)
            }
            Clause::To { state, .. } => {
                out.mark(Kind::To)?;
                state.write(out)
            }
            Clause::When {
                ip,
                interaction,
                params,
                ..
            } => {
                out.mark(Kind::When)?;
                ip.write(out)?;
                out.mark(Kind::Dot)?;
                interaction.write(out)?;
                write_when_params(params, out)
            }
            Clause::Provided { condition, .. } => {
                out.mark(Kind::Provided)?;
                condition.write(out)
            }
            Clause::Priority { value, .. } => {
                out.mark(Kind::Priority)?;
                value.write(out)
            }
            Clause::Any { domains, .. } => {
                out.mark(Kind::Any)?;
                separated(Kind::Semicolon, domains.items(), out)?;
                out.mark(Kind::Do)
            }
            Clause::Delay { low, high, .. } => {
                out.mark(Kind::Delay)?;
                out.mark(Kind::OpenParenthesis)?;
                low.write(out)?;
                write_delay_high(high, out)?;
                out.mark(Kind::CloseParenthesis)
            }
        }
    }
}

#[cycle(groups)]
fn write_trans_body(body: &TransBody, out: &mut Writer) -> Result<(), AllocError>
    ensures { OnOk result (out.new ≡ write out.old (spec.trans_body body.now)) }
{
    match body {
        TransBody::Block(block) => block.write(out),
        TransBody::Groups { groups, .. } => write_groups(groups.items(), out),
    }
}

#[cycle(groups)]
fn write_groups(groups: &[Group], out: &mut Writer) -> Result<(), AllocError>
    ensures { OnOk result (out.new ≡ write out.old (flat_map spec.group groups.now)) }
{
    for group in groups {
        write_group(group, out)?;
    }
    Ok(())
}

#[cycle(groups)]
fn write_group(group: &Group, out: &mut Writer) -> Result<(), AllocError>
    ensures { OnOk result (out.new ≡ write out.old (spec.group group.now)) }
{
    group.clause.write(out)?;
    write_trans_body(&group.body, out)
}

impl Node for TransBody {
    ghost tokens = { spec.trans_body };

    fn write(&self, out: &mut Writer) -> Result<(), AllocError> {
        write_trans_body(self, out)
    }
}
