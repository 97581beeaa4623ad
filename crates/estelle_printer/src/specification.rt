//! Channels, headers, bodies and specifications.

ghost use Rattle.std.specs.Prelude.{◌≡◌, OnOk};
ghost use Rattle.std.specs.List.{flat_map};
ghost use Rattle.estelle_printer.specs.SpecificationTokens as spec;
ghost use Rattle.estelle_printer.specs.Writing.{write};

use crate::node::{Node, chain, lines, may_be_lines, optional, separated};
use crate::writer::Writer;
use estelle_tree::{
    Attr, Body, Channel, Decl, Disc, Head, Header, Init, Inter, InterGroup, IpDecl, Kind,
    ModvarDecl, Name, ParamGroup, Params, Parts, Sequence, StatesetDef, SysAttr, Trans,
};
use std::alloc::AllocError;

impl Node for SysAttr {
    ghost tokens = { spec.sys_attr_tokens };

    fn write(&self, out: &mut Writer) -> Result<(), AllocError> {
        match self {
            SysAttr::Systemprocess { .. } => out.mark(Kind::Systemprocess),
            SysAttr::Systemactivity { .. } => out.mark(Kind::Systemactivity),
        }
    }
}

impl Node for Attr {
    ghost tokens = { spec.attr_tokens };

    fn write(&self, out: &mut Writer) -> Result<(), AllocError> {
        match self {
            Attr::SysAttr(sys) => sys.write(out),
            Attr::Process { .. } => out.mark(Kind::Process),
            Attr::Activity { .. } => out.mark(Kind::Activity),
        }
    }
}

/// With the word `queue` behind it.
impl Node for Disc {
    ghost tokens = { spec.queue };

    fn write(&self, out: &mut Writer) -> Result<(), AllocError> {
        match self {
            Disc::Individual { .. } => out.mark(Kind::Individual)?,
            Disc::Common { .. } => out.mark(Kind::Common)?,
        }
        out.mark(Kind::Queue)
    }
}

impl Node for Head {
    ghost tokens = { spec.head_tokens };

    fn write(&self, out: &mut Writer) -> Result<(), AllocError> {
        match self {
            Head::Default { disc, .. } => {
                out.mark(Kind::Default)?;
                disc.write(out)?;
                out.mark(Kind::Semicolon)
            }
            Head::Timescale { unit, .. } => {
                out.mark(Kind::Timescale)?;
                unit.write(out)?;
                out.mark(Kind::Semicolon)
            }
        }
    }
}

impl Node for ParamGroup {
    ghost tokens = { spec.param_group };

    fn write(&self, out: &mut Writer) -> Result<(), AllocError> {
        self.names.write(out)?;
        out.mark(Kind::Colon)?;
        self.type_name.write(out)
    }
}

/// `["(" Params ")"]`
fn write_params(params: &Option<Params>, out: &mut Writer) -> Result<(), AllocError>
    ensures { OnOk result (out.new ≡ write out.old (spec.may_be_params params.now)) }
{
    match params {
        Some(params) => {
            out.mark(Kind::OpenParenthesis)?;
            separated(Kind::Semicolon, params.groups.items(), out)?;
            out.mark(Kind::CloseParenthesis)
        }
        None => Ok(()),
    }
}

impl Node for Inter {
    ghost tokens = { spec.inter };

    fn write(&self, out: &mut Writer) -> Result<(), AllocError> {
        self.name.write(out)?;
        write_params(&self.params, out)
    }
}

impl Node for InterGroup {
    ghost tokens = { spec.inter_group };

    fn write(&self, out: &mut Writer) -> Result<(), AllocError> {
        out.mark(Kind::By)?;
        self.roles.write(out)?;
        out.mark(Kind::Colon)?;
        lines(self.inters.items(), out)
    }
}

impl Node for Channel {
    ghost tokens = { spec.channel };

    fn write(&self, out: &mut Writer) -> Result<(), AllocError> {
        out.mark(Kind::Channel)?;
        self.name.write(out)?;
        out.mark(Kind::OpenParenthesis)?;
        self.first_role.write(out)?;
        out.mark(Kind::Comma)?;
        self.second_role.write(out)?;
        out.mark(Kind::CloseParenthesis)?;
        out.mark(Kind::Semicolon)?;
        chain(self.groups.items(), out)
    }
}

impl Node for IpDecl {
    ghost tokens = { spec.ip_decl };

    fn write(&self, out: &mut Writer) -> Result<(), AllocError> {
        self.names.write(out)?;
        out.mark(Kind::Colon)?;
        self.channel.write(out)?;
        out.mark(Kind::OpenParenthesis)?;
        self.role.write(out)?;
        out.mark(Kind::CloseParenthesis)?;
        optional(&self.disc, out)
    }
}

impl Node for ModvarDecl {
    ghost tokens = { spec.modvar_decl };

    fn write(&self, out: &mut Writer) -> Result<(), AllocError> {
        self.names.write(out)?;
        out.mark(Kind::Colon)?;
        self.header.write(out)
    }
}

impl Node for StatesetDef {
    ghost tokens = { spec.stateset_def };

    fn write(&self, out: &mut Writer) -> Result<(), AllocError> {
        self.name.write(out)?;
        out.mark(Kind::Equal)?;
        out.mark(Kind::OpenBracket)?;
        self.states.write(out)?;
        out.mark(Kind::CloseBracket)
    }
}

impl Node for Header {
    ghost tokens = { spec.header };

    fn write(&self, out: &mut Writer) -> Result<(), AllocError> {
        out.mark(Kind::Module)?;
        self.name.write(out)?;
        optional(&self.attr, out)?;
        write_params(&self.params, out)?;
        out.mark(Kind::Semicolon)?;
        may_be_lines(Kind::Ip, self.ips.items(), out)?;
        may_be_lines(Kind::Export, self.exports.items(), out)?;
        out.mark(Kind::End)?;
        out.mark(Kind::Semicolon)
    }
}

/// `[to NAME]`
fn write_first_state(to: &Option<Name>, out: &mut Writer) -> Result<(), AllocError>
    ensures { OnOk result (out.new ≡ write out.old (spec.first_state to.now)) }
{
    match to {
        Some(name) => {
            out.mark(Kind::To)?;
            name.write(out)
        }
        None => Ok(()),
    }
}

impl Node for Init {
    ghost tokens = { spec.init };

    fn write(&self, out: &mut Writer) -> Result<(), AllocError> {
        out.mark(Kind::Initialize)?;
        write_first_state(&self.to, out)?;
        self.block.write(out)
    }
}

impl Node for Trans {
    ghost tokens = { spec.trans };

    fn write(&self, out: &mut Writer) -> Result<(), AllocError> {
        out.mark(Kind::Trans)?;
        self.body.write(out)
    }
}

/// `body NAME for NAME ";"`
fn write_body_head(name: &Name, header: &Name, out: &mut Writer) -> Result<(), AllocError>
    ensures { OnOk result (out.new ≡ write out.old (spec.body_head name.now header.now)) }
{
    out.mark(Kind::Body)?;
    name.write(out)?;
    out.mark(Kind::For)?;
    header.write(out)?;
    out.mark(Kind::Semicolon)
}

#[cycle(bodies)]
fn write_parts(parts: &Parts, out: &mut Writer) -> Result<(), AllocError>
    ensures { OnOk result (out.new ≡ write out.old (spec.parts parts.now)) }
{
    write_decls(parts.decls.items(), out)?;
    optional(&parts.init, out)?;
    chain(parts.trans.items(), out)
}

#[cycle(bodies)]
fn write_decls(decls: &[Decl], out: &mut Writer) -> Result<(), AllocError>
    ensures { OnOk result (out.new ≡ write out.old (flat_map spec.decl decls.now)) }
{
    for decl in decls {
        write_decl(decl, out)?;
    }
    Ok(())
}

#[cycle(bodies)]
fn write_decl(decl: &Decl, out: &mut Writer) -> Result<(), AllocError>
    ensures { OnOk result (out.new ≡ write out.old (spec.decl decl.now)) }
{
    match decl {
        Decl::Const { defs, .. } => {
            out.mark(Kind::Const)?;
            lines(defs.items(), out)
        }
        Decl::Types { defs, .. } => {
            out.mark(Kind::Type)?;
            lines(defs.items(), out)
        }
        Decl::Channel(channel) => channel.write(out),
        Decl::Header(header) => header.write(out),
        Decl::Body(body) => write_body(body, out),
        Decl::Ip { ips, .. } => {
            out.mark(Kind::Ip)?;
            lines(ips.items(), out)
        }
        Decl::Modvar { modvars, .. } => {
            out.mark(Kind::Modvar)?;
            lines(modvars.items(), out)
        }
        Decl::Var { vars, .. } => {
            out.mark(Kind::Var)?;
            lines(vars.items(), out)
        }
        Decl::State { states, .. } => {
            out.mark(Kind::State)?;
            states.write(out)?;
            out.mark(Kind::Semicolon)
        }
        Decl::Stateset { sets, .. } => {
            out.mark(Kind::Stateset)?;
            lines(sets.items(), out)
        }
        Decl::Routine(routine) => routine.write(out),
    }
}

#[cycle(bodies)]
fn write_body(body: &Body, out: &mut Writer) -> Result<(), AllocError>
    ensures { OnOk result (out.new ≡ write out.old (spec.body body.now)) }
{
    write_body_head(&body.name, &body.header, out)?;
    write_parts(&body.parts, out)?;
    out.mark(Kind::End)?;
    out.mark(Kind::Semicolon)
}

impl Node for Parts {
    ghost tokens = { spec.parts };

    fn write(&self, out: &mut Writer) -> Result<(), AllocError> {
        write_parts(self, out)
    }
}
