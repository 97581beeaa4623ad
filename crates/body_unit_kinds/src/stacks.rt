//! The stack of kinds at each address of a unit, as far as it is known.

ghost use Rattle.std.specs.Prelude.{◌≡◌, ◌∷◌, ◌++◌, ℕ, List, [], true, false, replicate, slice_get, IfOk, OnOk, MatchOption, Some, None};
ghost use Rattle.body_kinds.specs.Kinds as spec;
ghost use Rattle.body_kinds.specs.Kinded as kinded;
ghost use Rattle.body_unit_kinds.specs.Seen.{claimed, left_of, stack_of, stacks_of};
ghost use Rattle.body_unit_kinds.specs.Units.{Grows, Enters};

use crate::here::Here;
use crate::kind::{Kind, same_kinds};
use body_code::Instr;
use estelle_tree::Items;
use smallvec::SmallVec;
use std::alloc::{AllocError, Global};

/// A stack, the topmost first; most stacks take no memory of their own.
pub type Stack<'a> = SmallVec<Kind<'a>, 4>;

/// None where nothing is known to come.
pub type Stacks<'a> = Items<Option<Stack<'a>>>;

/// Of so many addresses, none known.
pub fn unknown<'a>(alloc: Global, count: usize) -> Result<Stacks<'a>, AllocError>
    ensures { IfOk result (λ stacks. stacks ≡ replicate count None) }
{
    let mut stacks = Items::new(alloc);
    for _i in 0..count {
        stacks.push(None)?;
    }
    Ok(stacks)
}

/// Whether the stack at an address is this one; none where it is not known.
fn compared(stacks: &[Option<Stack>], to: usize, stack: &[Kind]) -> Option<bool>
    ensures { MatchOption result (slice_get stacks.now to ≡ Some None) (λ same. same ≡ true → slice_get (stacks_of stacks.now) to ≡ Some (Some (stack_of stack.now))) }
{
    match stacks.get(to) {
        None => Some(false),
        Some(None) => None,
        Some(Some(known)) => Some(same_kinds(known.as_slice(), stack)),
    }
}

/// Lets a stack come to an address, where it is put if none is known; whether they agree. Nothing is put before an address.
#[tactic(auto, using(crate::proofs::Filling::same_stacks, crate::proofs::Filling::put_stands, crate::proofs::Filling::put_grows))]
pub fn put<'a>(stacks: &mut Stacks<'a>, address: usize, to: usize, stack: Stack<'a>) -> bool
    ensures grows { Grows address (stacks_of stacks.old) (stacks_of stacks.new) }
    ensures stands { result ≡ true → slice_get (stacks_of stacks.new) to ≡ Some (Some (stack_of stack.entry.items)) }
{
    match compared(stacks.as_slice(), to, stack.as_slice()) {
        Some(same) => same,
        None => {
            if to < address || stacks.len() <= to {
                return false;
            }
            stacks.set(to, Some(stack));
            true
        }
    }
}

/// Whether a jump to its own or a lower address stands there.
fn goes_back(here: &Here, address: usize) -> bool
    ensures { result ≡ kinded.goes_back here.now.bodies.now here.now.numbers.now here.now.code.now (claimed here.now.claims.now) address (slice_get here.now.unit.now.instrs address) }
{
    match here.unit.instrs.get(address) {
        Some(Instr::Jump(to)) => *to as usize <= address,
        _ => false,
    }
}

/// The same, at an address to which not only a turn may lead.
#[tactic(auto, using(crate::proofs::Filling::same_stacks))]
pub fn enter<'a>(
    here: &Here,
    stacks: &mut Stacks<'a>,
    address: usize,
    to: usize,
    stack: Stack<'a>,
) -> bool
    ensures grows { Grows address (stacks_of stacks.old) (stacks_of stacks.new) }
    ensures enters { result ≡ true → Enters here.now (stacks_of stacks.new) to (stack_of stack.entry.items) }
{
    if goes_back(here, to) {
        return false;
    }
    put(stacks, address, to, stack)
}

/// A copy of the stack at an address.
pub fn stack_at<'a>(
    alloc: Global,
    stacks: &[Option<Stack<'a>>],
    address: usize,
) -> Result<Option<Stack<'a>>, AllocError>
    ensures { IfOk result (λ found. MatchOption found ((ks : List spec.Kind) → slice_get (stacks_of stacks.now) address ≡ Some (Some ks) → ⊥) (λ stack. slice_get (stacks_of stacks.now) address ≡ Some (Some (stack_of stack.items)))) }
{
    match stacks.get(address) {
        None => Ok(None),
        Some(None) => Ok(None),
        Some(Some(stack)) => {
            let copy = SmallVec::from_slice(alloc, stack.as_slice())?;
            Ok(Some(copy))
        }
    }
}

/// What is left above the rest.
pub fn above<'a>(
    alloc: Global,
    left: Option<Kind<'a>>,
    rest: &[Kind<'a>],
) -> Result<Stack<'a>, AllocError>
    ensures { IfOk result (λ stack. stack_of stack.items ≡ left_of left.entry ++ stack_of rest.now) }
{
    match left {
        None => SmallVec::from_slice(alloc, rest),
        Some(kind) => {
            let mut stack = SmallVec::new(alloc);
            stack.push(kind)?;
            stack.extend_from_slice(rest)?;
            Ok(stack)
        }
    }
}
