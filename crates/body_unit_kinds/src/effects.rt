//! What an instruction takes from a stack of kinds, and what it leaves.

ghost use Rattle.std.specs.Prelude.{◌≡◌, ◌∷◌, true, false, IfSome, None};
ghost use Rattle.body_code.specs.declared.instr.Instr.TheVariants as op;
ghost use Rattle.body_kinds.specs.Kinds.{PlaceOf, StoresInto};
ghost use Rattle.body_unit_kinds.specs.Seen.{stack_of, left_of};
ghost use Rattle.body_unit_kinds.specs.Effects.{AreVariables, HasEffect};

use crate::arguments::{below_given, below_values, takes};
use crate::here::Here;
use crate::kind::{Kind, kind_of, same_kind, simple_kind};
use crate::operators::{given_by, one, operands, operator_of};
use crate::shapes::same_shape;
use crate::variables::{export, variable};
use body_code::{Entry, Instr};
use estelle_tree::Sequence;
use pascal_values::{Shape, Value};

/// What is left, and below it what was not taken.
pub struct After<'a, 's> {
    pub left: Option<Kind<'a>>,
    pub rest: &'s [Kind<'a>],
}

impl Drop for After<'_, '_> {
    fn drop(self) {
        let After { left: _, rest: _ } = self;
    }
}

#[tactic(auto, using(crate::proofs::EffectLemmas::effect_push))]
fn constant<'a, 's>(
    _here: &Here<'a, '_>,
    value: &Value,
    stack: &'s [Kind<'a>],
) -> Option<After<'a, 's>>
    ensures { IfSome result (λ after. HasEffect _here.now (op.Push value.now) (stack_of stack.now) (left_of after.left) (stack_of after.rest.now)) }
{
    let kind = simple_kind(value)?;
    Some(After {
        left: Some(kind),
        rest: stack,
    })
}

#[tactic(auto, using(crate::proofs::EffectLemmas::effect_var))]
fn own_variable<'a, 's>(
    here: &Here<'a, '_>,
    number: u32,
    stack: &'s [Kind<'a>],
) -> Option<After<'a, 's>>
    requires { AreVariables here.now.bodies.now here.now.variables.now }
    ensures { IfSome result (λ after. HasEffect here.now (op.Var number) (stack_of stack.now) (left_of after.left) (stack_of after.rest.now)) }
{
    if here.claim.closed {
        return None;
    }
    let shape = variable(here, here.body, number)?;
    Some(After {
        left: Some(Kind::PlaceOf(shape)),
        rest: stack,
    })
}

#[tactic(auto, using(crate::proofs::EffectLemmas::effect_loc))]
fn local<'a, 's>(here: &Here<'a, '_>, number: u32, stack: &'s [Kind<'a>]) -> Option<After<'a, 's>>
    ensures { IfSome result (λ after. HasEffect here.now (op.Loc number) (stack_of stack.now) (left_of after.left) (stack_of after.rest.now)) }
{
    let local = here.unit.locals.items().get(number as usize)?;
    if local.by_ref {
        return None;
    }
    Some(After {
        left: Some(Kind::PlaceOf(&local.shape)),
        rest: stack,
    })
}

#[tactic(auto, using(crate::proofs::EffectLemmas::effect_ref))]
fn reference<'a, 's>(
    here: &Here<'a, '_>,
    number: u32,
    stack: &'s [Kind<'a>],
) -> Option<After<'a, 's>>
    ensures { IfSome result (λ after. HasEffect here.now (op.Ref number) (stack_of stack.now) (left_of after.left) (stack_of after.rest.now)) }
{
    let local = here.unit.locals.items().get(number as usize)?;
    if !local.by_ref {
        return None;
    }
    Some(After {
        left: Some(Kind::PlaceOf(&local.shape)),
        rest: stack,
    })
}

#[tactic(auto, using(crate::proofs::EffectLemmas::effect_exp))]
fn exported<'a, 's>(
    here: &Here<'a, '_>,
    modvar: u32,
    number: u32,
    stack: &'s [Kind<'a>],
) -> Option<After<'a, 's>>
    requires { AreVariables here.now.bodies.now here.now.variables.now }
    ensures { IfSome result (λ after. HasEffect here.now (op.Exp modvar number) (stack_of stack.now) (left_of after.left) (stack_of after.rest.now)) }
{
    if here.claim.closed {
        return None;
    }
    let shape = export(here, modvar, number)?;
    Some(After {
        left: Some(Kind::PlaceOf(shape)),
        rest: stack,
    })
}

/// The shape of the place on top, and what stands below it.
fn place<'a, 's>(stack: &'s [Kind<'a>]) -> Option<(&'a Shape, &'s [Kind<'a>])>
    ensures { IfSome result (λ r. stack_of stack.now ≡ PlaceOf r.0.now ∷ stack_of r.1.now) }
{
    let (top, rest) = one(stack)?;
    match top {
        Kind::PlaceOf(shape) => Some((shape, rest)),
        Kind::Integer => None,
        Kind::Boolean => None,
        Kind::Character => None,
        Kind::Enumerated => None,
        Kind::Members => None,
        Kind::Whole(_) => None,
    }
}

#[tactic(auto, using(crate::proofs::EffectLemmas::effect_field))]
fn field<'a, 's>(_here: &Here<'a, '_>, number: u32, stack: &'s [Kind<'a>]) -> Option<After<'a, 's>>
    ensures { IfSome result (λ after. HasEffect _here.now (op.Field number) (stack_of stack.now) (left_of after.left) (stack_of after.rest.now)) }
{
    let (shape, rest) = place(stack)?;
    match shape {
        Shape::Fields(fields) => {
            let part = fields.get(number as usize)?;
            Some(After {
                left: Some(Kind::PlaceOf(part)),
                rest,
            })
        }
        _ => None,
    }
}

#[tactic(auto, using(crate::proofs::EffectLemmas::effect_index))]
fn index<'a, 's>(
    _here: &Here<'a, '_>,
    low: i64,
    high: i64,
    stack: &'s [Kind<'a>],
) -> Option<After<'a, 's>>
    ensures { IfSome result (λ after. HasEffect _here.now (op.Index low high) (stack_of stack.now) (left_of after.left) (stack_of after.rest.now)) }
{
    let (top, below) = one(stack)?;
    if !same_kind(top, Kind::Integer) {
        return None;
    }
    let (shape, rest) = place(below)?;
    match shape {
        Shape::Array {
            low: least,
            high: most,
            item,
        } => {
            if *least != low || *most != high {
                return None;
            }
            Some(After {
                left: Some(Kind::PlaceOf(item.get())),
                rest,
            })
        }
        _ => None,
    }
}

#[tactic(auto, using(crate::proofs::EffectLemmas::effect_load))]
fn load<'a, 's>(_here: &Here<'a, '_>, stack: &'s [Kind<'a>]) -> Option<After<'a, 's>>
    ensures { IfSome result (λ after. HasEffect _here.now op.Load (stack_of stack.now) (left_of after.left) (stack_of after.rest.now)) }
{
    let (shape, rest) = place(stack)?;
    Some(After {
        left: Some(kind_of(shape)),
        rest,
    })
}

/// Whether a shape is another one, or that of an array inside it with fewer indices.
#[tactic(auto, using(crate::proofs::EffectLemmas::stored_itself, crate::proofs::EffectLemmas::stored_inside))]
fn stores_into(outer: &Shape, shape: &Shape) -> bool
    ensures { result ≡ true → StoresInto outer.now shape.now }
{
    if same_shape(outer, shape) {
        return true;
    }
    match outer {
        Shape::Array { item, .. } => match item.get() {
            Shape::Array { .. } => stores_into(item.get(), shape),
            _ => false,
        },
        _ => false,
    }
}

#[tactic(auto, using(crate::proofs::EffectLemmas::effect_store))]
fn store<'a, 's>(here: &Here<'a, '_>, number: u32, stack: &'s [Kind<'a>]) -> Option<After<'a, 's>>
    ensures { IfSome result (λ after. HasEffect here.now (op.Store number) (stack_of stack.now) (left_of after.left) (stack_of after.rest.now)) }
{
    let outer = here.numbers.shape(number)?;
    let (value, below) = one(stack)?;
    let (shape, rest) = place(below)?;
    if !same_kind(value, kind_of(shape)) || !stores_into(outer, shape) {
        return None;
    }
    Some(After { left: None, rest })
}

#[tactic(auto, using(crate::proofs::EffectLemmas::effect_fit))]
fn fit<'a, 's>(here: &Here<'a, '_>, number: u32, stack: &'s [Kind<'a>]) -> Option<After<'a, 's>>
    ensures { IfSome result (λ after. HasEffect here.now (op.Fit number) (stack_of stack.now) (left_of after.left) (stack_of after.rest.now)) }
{
    let shape = here.numbers.shape(number)?;
    let (value, rest) = one(stack)?;
    if !same_kind(value, kind_of(shape)) {
        return None;
    }
    Some(After {
        left: Some(value),
        rest,
    })
}

#[tactic(auto, using(crate::proofs::EffectLemmas::effect_blank))]
fn blank<'a, 's>(_here: &Here<'a, '_>, stack: &'s [Kind<'a>]) -> Option<After<'a, 's>>
    ensures { IfSome result (λ after. HasEffect _here.now op.Blank (stack_of stack.now) (left_of after.left) (stack_of after.rest.now)) }
{
    let (_, rest) = place(stack)?;
    Some(After { left: None, rest })
}

/// What a unit leaves, if that is one value at most.
fn value_left<'a>(result_kinds: &[Kind<'a>]) -> Option<Option<Kind<'a>>>
    ensures { IfSome result (λ left. stack_of result_kinds.now ≡ left_of left) }
{
    match result_kinds {
        [] => Some(None),
        [kind] => Some(Some(*kind)),
        _ => None,
    }
}

#[tactic(auto, using(crate::proofs::EffectLemmas::effect_call))]
fn call<'a, 's>(
    here: &Here<'a, '_>,
    body: u32,
    routine: u32,
    arguments: u32,
    stack: &'s [Kind<'a>],
) -> Option<After<'a, 's>>
    ensures { IfSome result (λ after. HasEffect here.now (op.Call body routine arguments) (stack_of stack.now) (left_of after.left) (stack_of after.rest.now)) }
{
    let unit = here.code.unit(body, Entry::Routine(routine))?;
    let claim = here.claims.get(body, Entry::Routine(routine))?;
    if !claim.closed && (here.claim.closed || body != here.body) {
        return None;
    }
    if !takes(arguments as usize, unit) {
        return None;
    }
    let rest = below_given(arguments as usize, unit.locals.items(), stack)?;
    let left = value_left(claim.result.items())?;
    Some(After { left, rest })
}

#[tactic(auto, using(crate::proofs::EffectLemmas::effect_init))]
fn init<'a, 's>(
    here: &Here<'a, '_>,
    modvar: u32,
    body: u32,
    arguments: u32,
    stack: &'s [Kind<'a>],
) -> Option<After<'a, 's>>
    ensures { IfSome result (λ after. HasEffect here.now (op.Init modvar body arguments) (stack_of stack.now) (left_of after.left) (stack_of after.rest.now)) }
{
    let _ = modvar;
    if here.claim.closed {
        return None;
    }
    let _unit = here.code.unit(body, Entry::Initialize)?;
    let types = here.bodies.parameters(body);
    if arguments as usize != types.len() {
        return None;
    }
    let rest = below_values(types, stack)?;
    Some(After { left: None, rest })
}

#[tactic(auto, using(crate::proofs::EffectLemmas::effect_output))]
fn output<'a, 's>(
    here: &Here<'a, '_>,
    ip: u32,
    interaction: u32,
    arguments: u32,
    stack: &'s [Kind<'a>],
) -> Option<After<'a, 's>>
    ensures { IfSome result (λ after. HasEffect here.now (op.Output ip interaction arguments) (stack_of stack.now) (left_of after.left) (stack_of after.rest.now)) }
{
    if here.claim.closed {
        return None;
    }
    let _word = here.numbers.word(here.body, ip)?;
    let kind = here.numbers.interaction(here.body, ip, interaction)?;
    let types = kind.parameters.items();
    if arguments as usize != types.len() {
        return None;
    }
    let rest = below_values(types, stack)?;
    Some(After { left: None, rest })
}

/// Of an instruction that takes and leaves nothing and needs the instance.
fn statement<'a, 's>(here: &Here<'a, '_>, stack: &'s [Kind<'a>]) -> Option<After<'a, 's>>
    ensures { IfSome result (λ after. (here.now.claim.now.closed ≡ false) × (after.left ≡ None) × (stack_of stack.now ≡ stack_of after.rest.now)) }
{
    if here.claim.closed {
        return None;
    }
    Some(After {
        left: None,
        rest: stack,
    })
}

/// Of an instruction that is no operator; none of a jump, a turn and an end.
fn other<'a, 's>(here: &Here<'a, '_>, instr: &Instr, stack: &'s [Kind<'a>]) -> Option<After<'a, 's>>
    requires { AreVariables here.now.bodies.now here.now.variables.now }
    ensures { IfSome result (λ after. HasEffect here.now instr.now (stack_of stack.now) (left_of after.left) (stack_of after.rest.now)) }
{
    match instr {
        Instr::Push(value) => constant(here, value, stack),
        Instr::Var(number) => own_variable(here, *number, stack),
        Instr::Loc(number) => local(here, *number, stack),
        Instr::Ref(number) => reference(here, *number, stack),
        Instr::Exp {
            modvar,
            export: number,
        } => exported(here, *modvar, *number, stack),
        Instr::Field(number) => field(here, *number, stack),
        Instr::Index { low, high } => index(here, *low, *high, stack),
        Instr::Load => load(here, stack),
        Instr::Store(number) => store(here, *number, stack),
        Instr::Fit(number) => fit(here, *number, stack),
        Instr::Blank => blank(here, stack),
        Instr::Call {
            body,
            routine,
            arguments,
        } => call(here, *body, *routine, *arguments, stack),
        Instr::Init {
            modvar,
            body,
            arguments,
        } => init(here, *modvar, *body, *arguments, stack),
        Instr::Output {
            ip,
            interaction,
            arguments,
        } => output(here, *ip, *interaction, *arguments, stack),
        Instr::Release(_) => statement(here, stack),
        Instr::Connect(_, _) => statement(here, stack),
        Instr::Disconnect(_) => statement(here, stack),
        Instr::Attach { .. } => statement(here, stack),
        Instr::Detach(_) => statement(here, stack),
        _ => None,
    }
}

/// Of an instruction that goes on behind itself.
#[tactic(auto, using(crate::proofs::OperatorLemmas::operator_leaves))]
pub fn effect<'a, 's>(
    here: &Here<'a, '_>,
    instr: &Instr,
    stack: &'s [Kind<'a>],
) -> Option<After<'a, 's>>
    requires { AreVariables here.now.bodies.now here.now.variables.now }
    ensures { IfSome result (λ after. HasEffect here.now instr.now (stack_of stack.now) (left_of after.left) (stack_of after.rest.now)) }
{
    match operator_of(instr) {
        None => other(here, instr, stack),
        Some(operator) => {
            let (operand, rest) = operands(operator.takes, stack)?;
            Some(After {
                left: Some(given_by(operator.gives, operand)),
                rest,
            })
        }
    }
}
