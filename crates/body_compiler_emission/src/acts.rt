//! Statements of Estelle (ISO/IEC 9074).

ghost use Rattle.std.specs.Prelude.{◌≡◌, [], IfOk, OnOk, Some, None, option_map, map};
ghost use Rattle.estelle_model.specs.Definitions as definitions;
ghost use Rattle.estelle_model.specs.declared.meaning.Meaning.TheVariants as meant;
ghost use Rattle.estelle_model.specs.Statements as statements;
ghost use Rattle.body_compiler_pieces.specs.StatementCode as code;
ghost use Rattle.body_compiler_emission.specs.Drafts.{grown};
ghost use Rattle.body_compiler_emission.specs.Scopes.{scope_of};
ghost use Rattle.body_compiler_emission.specs.EmittedStatements as emitted;

use crate::draft::{Draft, number};
use crate::names::{exprs_of, value_arguments};
use crate::scope::Scope;
use body_code::{Ends, Instr, Point};
use estelle_model::{Meaning, Type};
use estelle_tree::{Args, Ip, Name, Sequence};
use std::alloc::AllocError;

/// An interaction point of the child in a module variable.
fn point_of_child(scope: &Scope, modvar: u32, part: &Name) -> Result<Point, AllocError>
    ensures { IfOk result (λ p. code.point_of (scope_of scope.now) (meant.Module modvar) (Some ((scope_of scope.now).meant part.now)) ≡ Some p) }
{
    match scope.meaning(part) {
        Meaning::Ip(ip) => Ok(Point::OfChild { modvar, ip: *ip }),
        _ => Err(AllocError),
    }
}

/// An interaction point of the instance, or of the child in a module variable.
fn point(scope: &Scope, name: &Name, part: &Option<Name>) -> Result<Point, AllocError>
    ensures { IfOk result (λ p. code.point_of (scope_of scope.now) ((scope_of scope.now).meant name.now) (option_map (scope_of scope.now).meant part.now) ≡ Some p) }
{
    match scope.meaning(name) {
        Meaning::Ip(ip) => match part {
            None => Ok(Point::Own(*ip)),
            Some(_) => Err(AllocError),
        },
        Meaning::Module(modvar) => match part {
            None => Err(AllocError),
            Some(part) => point_of_child(scope, *modvar, part),
        },
        _ => Err(AllocError),
    }
}

/// An own interaction point.
fn own_point(scope: &Scope, name: &Name) -> Result<u32, AllocError>
    ensures { IfOk result (λ ip. (scope_of scope.now).meant name.now ≡ meant.Ip ip) }
{
    match scope.meaning(name) {
        Meaning::Ip(ip) => Ok(*ip),
        _ => Err(AllocError),
    }
}

fn module_variable(scope: &Scope, name: &Name) -> Result<u32, AllocError>
    ensures { IfOk result (λ modvar. (scope_of scope.now).meant name.now ≡ meant.Module modvar) }
{
    match scope.meaning(name) {
        Meaning::Module(modvar) => Ok(*modvar),
        _ => Err(AllocError),
    }
}

/// What is disconnected: an interaction point, or all those of a child.
fn ends(scope: &Scope, node: &Ip) -> Result<Ends, AllocError>
    ensures { IfOk result (λ e. code.ends_of (scope_of scope.now) ((scope_of scope.now).meant node.now.name) (option_map (scope_of scope.now).meant node.now.part) ≡ Some e) }
{
    match (scope.meaning(&node.name), &node.part) {
        (Meaning::Module(modvar), None) => Ok(Ends::Child(*modvar)),
        _ => Ok(Ends::Point(point(scope, &node.name, &node.part)?)),
    }
}

#[tactic(auto, using(crate::proofs::ActSteps::connect_steps))]
pub fn connect(scope: &Scope, unit: &mut Draft, first: &Ip, second: &Ip) -> Result<(), AllocError>
    ensures { OnOk result (unit.new ≡ grown (emitted.act scope.now (statements.Connect first.now second.now) []) unit.old) }
{
    let a = point(scope, &first.name, &first.part)?;
    let b = point(scope, &second.name, &second.part)?;
    unit.push(Instr::Connect(a, b))
}

#[tactic(auto, using(crate::proofs::ActSteps::disconnect_steps))]
pub fn disconnect(scope: &Scope, unit: &mut Draft, node: &Ip) -> Result<(), AllocError>
    ensures { OnOk result (unit.new ≡ grown (emitted.act scope.now (statements.Disconnect node.now) []) unit.old) }
{
    let ends = ends(scope, node)?;
    unit.push(Instr::Disconnect(ends))
}

#[tactic(auto, using(crate::proofs::ActSteps::attach_steps))]
pub fn attach(
    scope: &Scope,
    unit: &mut Draft,
    own: &Name,
    modvar: &Name,
    ip: &Name,
) -> Result<(), AllocError>
    ensures { OnOk result (unit.new ≡ grown (emitted.act scope.now (statements.Attach own.now modvar.now ip.now) []) unit.old) }
{
    let upper = own_point(scope, own)?;
    let modvar = module_variable(scope, modvar)?;
    let lower = point_of_child(scope, modvar, ip)?;
    unit.push(Instr::Attach { upper, lower })
}

#[tactic(auto, using(crate::proofs::ActSteps::detach_steps))]
pub fn detach(scope: &Scope, unit: &mut Draft, own: &Name) -> Result<(), AllocError>
    ensures { OnOk result (unit.new ≡ grown (emitted.act scope.now (statements.Detach own.now) []) unit.old) }
{
    let upper = own_point(scope, own)?;
    unit.push(Instr::Detach(upper))
}

#[tactic(auto, using(crate::proofs::ActSteps::release_steps))]
pub fn release(scope: &Scope, unit: &mut Draft, modvar: &Name) -> Result<(), AllocError>
    ensures { OnOk result (unit.new ≡ grown (emitted.act scope.now (statements.Release modvar.now) []) unit.old) }
{
    let modvar = module_variable(scope, modvar)?;
    unit.push(Instr::Release(modvar))
}

/// The types of what is received with an interaction.
fn types_received<'t>(meaning: &'t Meaning) -> &'t [Type]
    ensures { result.now ≡ definitions.types_received meaning.now }
{
    match meaning {
        Meaning::Interaction(kind) => kind.parameters.items(),
        _ => &[],
    }
}

/// An `output`: the arguments come first.
#[tactic(auto, using(crate::proofs::ActSteps::output_steps))]
pub fn output(
    scope: &Scope,
    unit: &mut Draft,
    ip: &Name,
    interaction: &Name,
    args: &Option<Args>,
) -> Result<(), AllocError>
    ensures { OnOk result (unit.new ≡ grown (emitted.act scope.now (statements.Output ip.now interaction.now) (emitted.exprs_of args.now)) unit.old) }
{
    let own = own_point(scope, ip)?;
    let Some(sent) = scope.interaction(ip, interaction) else {
        return Err(AllocError);
    };
    let types = types_received(scope.meaning(interaction));
    let arguments = number(types.len())?;
    value_arguments(scope, unit, types, exprs_of(args))?;
    unit.push(Instr::Output {
        ip: own,
        interaction: sent,
        arguments,
    })
}

/// An `init`: the arguments come first.
#[tactic(auto, using(crate::proofs::ActSteps::init_steps))]
pub fn init(
    scope: &Scope,
    unit: &mut Draft,
    modvar: &Name,
    body: &Name,
    args: &Option<Args>,
) -> Result<(), AllocError>
    ensures { OnOk result (unit.new ≡ grown (emitted.act scope.now (statements.Init modvar.now body.now) (emitted.exprs_of args.now)) unit.old) }
{
    let modvar = module_variable(scope, modvar)?;
    let Meaning::Body(body) = scope.meaning(body) else {
        return Err(AllocError);
    };
    let Some(types) = scope.parameters(*body) else {
        return Err(AllocError);
    };
    let arguments = number(types.len())?;
    value_arguments(scope, unit, types, exprs_of(args))?;
    unit.push(Instr::Init {
        modvar,
        body: *body,
        arguments,
    })
}
