//! Whether a unit is of good kinds: in one pass each address is checked with the stack that comes to it.

ghost use Rattle.std.specs.Prelude.{◌≡◌, suc, true, IfOk, IfSome, OnOk, IsTrue, Some};
ghost use Rattle.std.specs.List.{list_all};
ghost use Rattle.body_kinds.specs.Kinds as spec;
ghost use Rattle.body_kinds.specs.Kinded.{HasStacks};
ghost use Rattle.body_unit_kinds.specs.Seen.{meant, claimed, claimed_by, stack_of, stacks_of};
ghost use Rattle.body_unit_kinds.specs.Effects.{AreVariables};
ghost use Rattle.body_unit_kinds.specs.Units.{Grows, Decides, GoesOn, GoesOnAt, LeadsTo, IsVisited};

use crate::effects::effect;
use crate::here::Here;
use crate::kind::{Kind, same_kind, same_kinds};
use crate::operators::one;
use crate::stacks::{Stack, Stacks, above, enter, put, stack_at, unknown};
use body_code::Instr;
use estelle_tree::Sequence;
use smallvec::SmallVec;
use std::alloc::{AllocError, Global};

/// A jump over others where a truth value decides.
#[tactic(auto, using(crate::proofs::Filling::same_stacks, crate::proofs::Filling::grows_then, crate::proofs::Filling::enters_still))]
fn decide<'a>(
    alloc: Global,
    here: &Here,
    next: usize,
    to: usize,
    stack: &[Kind<'a>],
    stacks: &mut Stacks<'a>,
) -> Result<bool, AllocError>
    ensures grows { OnOk result (Grows next (stacks_of stacks.old) (stacks_of stacks.new)) }
    ensures leads { IfOk result (λ fits. fits ≡ true → Decides here.now next to (stack_of stack.now) (stacks_of stacks.new)) }
{
    match one(stack) {
        None => Ok(false),
        Some((top, rest)) => {
            if !same_kind(top, Kind::Boolean) || to < next {
                return Ok(false);
            }
            let first = SmallVec::from_slice(alloc, rest)?;
            let second = SmallVec::from_slice(alloc, rest)?;
            if !enter(here, stacks, next, to, first) {
                return Ok(false);
            }
            Ok(enter(here, stacks, next, next, second))
        }
    }
}

/// Where an instruction that does not go on behind itself leads with a stack; whether that agrees with what is known.
#[tactic(auto, using(crate::proofs::Filling::same_stacks, crate::proofs::Fine::jumps, crate::proofs::Fine::decides_false, crate::proofs::Fine::decides_true, crate::proofs::Fine::turns, crate::proofs::Fine::returns_there, crate::proofs::Fine::fails))]
fn lead<'a>(
    alloc: Global,
    here: &Here,
    next: usize,
    instr: &Instr,
    stack: Stack<'a>,
    stacks: &mut Stacks<'a>,
) -> Result<bool, AllocError>
    ensures grows { OnOk result (Grows next (stacks_of stacks.old) (stacks_of stacks.new)) }
    ensures leads { IfOk result (λ fits. fits ≡ true → LeadsTo here.now next instr.now (stack_of stack.entry.items) (stacks_of stacks.new)) }
{
    match instr {
        Instr::Jump(to) => Ok(enter(here, stacks, next, *to as usize, stack)),
        Instr::Jfalse(to) => decide(alloc, here, next, *to as usize, stack.as_slice(), stacks),
        Instr::Jtrue(to) => decide(alloc, here, next, *to as usize, stack.as_slice(), stacks),
        Instr::Turn => Ok(put(stacks, next, next, stack)),
        Instr::Ret => Ok(same_kinds(stack.as_slice(), here.claim.result.items())),
        Instr::Fail(_) => Ok(true),
        _ => Ok(false),
    }
}

/// What stands behind an instruction that goes on behind itself, if the stack fits.
fn left_behind<'a>(
    alloc: Global,
    here: &Here<'a, '_>,
    instr: &Instr,
    stack: &[Kind<'a>],
) -> Result<Option<Stack<'a>>, AllocError>
    requires { AreVariables here.now.bodies.now here.now.variables.now }
    ensures { IfOk result (λ found. IfSome found (λ left. GoesOn here.now instr.now (stack_of stack.now) (stack_of left.items))) }
{
    match effect(here, instr, stack) {
        None => Ok(None),
        Some(after) => {
            let left = above(alloc, after.left, after.rest)?;
            Ok(Some(left))
        }
    }
}

/// The same at an address, if a stack is known to come there.
fn left_at<'a>(
    alloc: Global,
    here: &Here<'a, '_>,
    address: usize,
    stacks: &[Option<Stack<'a>>],
) -> Result<Option<Stack<'a>>, AllocError>
    requires { AreVariables here.now.bodies.now here.now.variables.now }
    ensures { IfOk result (λ found. IfSome found (λ left. GoesOnAt here.now (stacks_of stacks.now) address (stack_of left.items))) }
{
    match stacks.get(address) {
        None => Ok(None),
        Some(None) => Ok(None),
        Some(Some(stack)) => match here.unit.instrs.get(address) {
            None => Ok(None),
            Some(instr) => left_behind(alloc, here, instr, stack.as_slice()),
        },
    }
}

/// Whether what stands at an address is fine, where no instruction goes on behind itself.
#[tactic(auto, using(crate::proofs::Filling::same_stacks, crate::proofs::Fine::visited, crate::proofs::Fine::not_visited))]
fn turn_off<'a>(
    alloc: Global,
    here: &Here,
    address: usize,
    next: usize,
    stacks: &mut Stacks<'a>,
) -> Result<bool, AllocError>
    requires follows { next ≡ suc address }
    ensures grows { OnOk result (Grows next (stacks_of stacks.old) (stacks_of stacks.new)) }
    ensures visited { IfOk result (λ fits. fits ≡ true → IsVisited here.now (stacks_of stacks.new) address) }
{
    match stack_at(alloc, stacks.as_slice(), address)? {
        None => Ok(true),
        Some(stack) => match here.unit.instrs.get(address) {
            None => Ok(false),
            Some(instr) => lead(alloc, here, next, instr, stack, stacks),
        },
    }
}

/// Whether what stands at an address is fine.
#[tactic(auto, using(crate::proofs::Filling::same_stacks, crate::proofs::Fine::visited_on))]
fn visit<'a>(
    alloc: Global,
    here: &Here<'a, '_>,
    address: usize,
    next: usize,
    stacks: &mut Stacks<'a>,
) -> Result<bool, AllocError>
    requires variables { AreVariables here.now.bodies.now here.now.variables.now }
    requires follows { next ≡ suc address }
    ensures grows { OnOk result (Grows next (stacks_of stacks.old) (stacks_of stacks.new)) }
    ensures visited { IfOk result (λ fits. fits ≡ true → IsVisited here.now (stacks_of stacks.new) address) }
{
    match left_at(alloc, here, address, stacks.as_slice())? {
        Some(left) => Ok(enter(here, stacks, next, next, left)),
        None => turn_off(alloc, here, address, next, stacks),
    }
}

/// Where nothing is known to come directly behind a jump, as to the statement of a loop, the stack is the one at the jump. It is
/// checked as any other.
#[tactic(auto, using(crate::proofs::Filling::same_stacks))]
fn guess<'a>(
    alloc: Global,
    here: &Here,
    address: usize,
    stacks: &mut Stacks<'a>,
) -> Result<(), AllocError>
    ensures { OnOk result (Grows address (stacks_of stacks.old) (stacks_of stacks.new)) }
{
    if address == 0 {
        return Ok(());
    }
    let before = address - 1;
    match here.unit.instrs.get(before) {
        Some(Instr::Jump(_)) => match stack_at(alloc, stacks.as_slice(), before)? {
            None => Ok(()),
            Some(stack) => {
                let _ = put(stacks, address, address, stack);
                Ok(())
            }
        },
        _ => Ok(()),
    }
}

fn is_value(kind: Kind) -> bool
    ensures { result ≡ spec.is_of_values (meant kind.entry) }
{
    match kind {
        Kind::Integer => true,
        Kind::Boolean => true,
        Kind::Character => true,
        Kind::Enumerated => true,
        Kind::Members => true,
        Kind::Whole(_) => true,
        Kind::PlaceOf(_) => false,
    }
}

fn are_values(kinds: &[Kind]) -> bool
    ensures { result ≡ true → IsTrue (list_all spec.is_of_values (stack_of kinds.now)) }
{
    for kind in kinds {
        if !is_value(*kind) {
            return false;
        }
    }
    true
}

/// Whether some stacks make the unit of good kinds.
#[tactic(auto, using(crate::proofs::Fine::found_none, crate::proofs::Fine::found_more, crate::proofs::Fine::has_stacks))]
pub fn is_kinded<'a>(alloc: Global, here: &Here<'a, '_>) -> Result<bool, AllocError>
    requires { AreVariables here.now.bodies.now here.now.variables.now }
    ensures { IfOk result (λ kinded. kinded ≡ true → HasStacks here.now.bodies.now here.now.numbers.now here.now.code.now (claimed here.now.claims.now) here.now.body here.now.unit.now (claimed_by (Some here.now.claim.now))) }
{
    let count = here.unit.instrs.len();
    let mut stacks = unknown(alloc, count)?;
    if !enter(here, &mut stacks, 0, 0, SmallVec::new(alloc)) {
        return Ok(false);
    }
    for address in 0..count {
        guess(alloc, here, address, &mut stacks)?;
        if !visit(alloc, here, address, address + 1, &mut stacks)? {
            return Ok(false);
        }
    }
    Ok(are_values(here.claim.result.items()))
}
