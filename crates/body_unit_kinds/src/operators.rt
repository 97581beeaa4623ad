//! Operators by the kinds that they take and leave.

ghost use Rattle.std.specs.Prelude.{◌≡◌, ◌∷◌, true, IsTrue, IfSome, Some};
ghost use Rattle.body_kinds.specs.Kinds as spec;
ghost use Rattle.body_unit_kinds.specs.Seen.{meant, stack_of};
ghost use Rattle.body_unit_kinds.specs.Effects as table;

use crate::kind::{Kind, same_kind};
use body_code::Instr;

/// What an operator takes.
#[derive(Clone, Copy, Debug)]
pub enum Takes {
    Nothing,
    Integer,
    Boolean,
    Ordinal,
    /// Two integers.
    Integers,
    /// Two integers, or two sets.
    Added,
    Ordinals,
    /// The ordinal of the first member, and the last member.
    Ends,
    Compared,
    Sets,
    /// A member and a set above it.
    Member,
}

/// What it leaves.
#[derive(Clone, Copy, Debug)]
pub enum Gives {
    Integer,
    Boolean,
    Character,
    Members,
    /// The kind of its operand.
    Same,
}

#[derive(Clone, Copy, Debug)]
pub struct Operator {
    pub takes: Takes,
    pub gives: Gives,
}

fn make_operator(takes: Takes, gives: Gives) -> Option<Operator>
    ensures { result ≡ Some (record { takes = takes; gives = gives }) }
{
    Some(Operator { takes, gives })
}

/// The operator that an instruction is, if it is one.
pub fn operator_of(instr: &Instr) -> Option<Operator>
    ensures { result ≡ table.operator_of instr.now }
{
    match instr {
        Instr::Neg => make_operator(Takes::Integer, Gives::Integer),
        Instr::Abs => make_operator(Takes::Integer, Gives::Integer),
        Instr::Sqr => make_operator(Takes::Integer, Gives::Integer),
        Instr::Odd => make_operator(Takes::Integer, Gives::Boolean),
        Instr::Chr => make_operator(Takes::Integer, Gives::Character),
        Instr::Ord => make_operator(Takes::Ordinal, Gives::Integer),
        Instr::Succ => make_operator(Takes::Ordinal, Gives::Same),
        Instr::Pred => make_operator(Takes::Ordinal, Gives::Same),
        Instr::One => make_operator(Takes::Ordinal, Gives::Members),
        Instr::Not => make_operator(Takes::Boolean, Gives::Boolean),
        Instr::Add => make_operator(Takes::Added, Gives::Same),
        Instr::Sub => make_operator(Takes::Added, Gives::Same),
        Instr::Mul => make_operator(Takes::Added, Gives::Same),
        Instr::Div => make_operator(Takes::Integers, Gives::Integer),
        Instr::Mod => make_operator(Takes::Integers, Gives::Integer),
        Instr::Eq => make_operator(Takes::Compared, Gives::Boolean),
        Instr::Ne => make_operator(Takes::Compared, Gives::Boolean),
        Instr::Lt => make_operator(Takes::Ordinals, Gives::Boolean),
        Instr::Le => make_operator(Takes::Compared, Gives::Boolean),
        Instr::Gt => make_operator(Takes::Ordinals, Gives::Boolean),
        Instr::Ge => make_operator(Takes::Compared, Gives::Boolean),
        Instr::Span => make_operator(Takes::Ends, Gives::Members),
        Instr::Empty => make_operator(Takes::Nothing, Gives::Members),
        Instr::Unite => make_operator(Takes::Sets, Gives::Members),
        Instr::Meet => make_operator(Takes::Sets, Gives::Members),
        Instr::Minus => make_operator(Takes::Sets, Gives::Members),
        Instr::Has => make_operator(Takes::Member, Gives::Boolean),
        Instr::Push(_) => None,
        Instr::Var(_) => None,
        Instr::Loc(_) => None,
        Instr::Ref(_) => None,
        Instr::Exp { .. } => None,
        Instr::Field(_) => None,
        Instr::Index { .. } => None,
        Instr::Load => None,
        Instr::Store(_) => None,
        Instr::Fit(_) => None,
        Instr::Jump(_) => None,
        Instr::Jfalse(_) => None,
        Instr::Jtrue(_) => None,
        Instr::Turn => None,
        Instr::Call { .. } => None,
        Instr::Ret => None,
        Instr::Fail(_) => None,
        Instr::Blank => None,
        Instr::Init { .. } => None,
        Instr::Release(_) => None,
        Instr::Connect(_, _) => None,
        Instr::Disconnect(_) => None,
        Instr::Attach { .. } => None,
        Instr::Detach(_) => None,
        Instr::Output { .. } => None,
    }
}

/// What is left of operands like this one.
pub fn given_by<'a>(gives: Gives, operand: Kind<'a>) -> Kind<'a>
    ensures { meant result ≡ table.given_by gives (meant operand.entry) }
{
    match gives {
        Gives::Integer => Kind::Integer,
        Gives::Boolean => Kind::Boolean,
        Gives::Character => Kind::Character,
        Gives::Members => Kind::Members,
        Gives::Same => operand,
    }
}

fn is_ordinal(kind: Kind) -> bool
    ensures { result ≡ spec.is_ordinal (meant kind.entry) }
{
    match kind {
        Kind::Integer => true,
        Kind::Boolean => true,
        Kind::Character => true,
        Kind::Enumerated => true,
        Kind::Members => false,
        Kind::Whole(_) => false,
        Kind::PlaceOf(_) => false,
    }
}

fn is_added(kind: Kind) -> bool
    ensures { result ≡ spec.is_added (meant kind.entry) }
{
    match kind {
        Kind::Integer => true,
        Kind::Members => true,
        Kind::Boolean => false,
        Kind::Character => false,
        Kind::Enumerated => false,
        Kind::Whole(_) => false,
        Kind::PlaceOf(_) => false,
    }
}

fn is_compared(kind: Kind) -> bool
    ensures { result ≡ spec.is_compared (meant kind.entry) }
{
    match kind {
        Kind::Integer => true,
        Kind::Boolean => true,
        Kind::Character => true,
        Kind::Enumerated => true,
        Kind::Members => true,
        Kind::Whole(_) => false,
        Kind::PlaceOf(_) => false,
    }
}

/// The topmost kind, if it is this one, and the rest.
fn one_like<'a, 's>(kind: Kind<'a>, stack: &'s [Kind<'a>]) -> Option<(Kind<'a>, &'s [Kind<'a>])>
    ensures { IfSome result (λ r. (meant r.0 ≡ meant kind.entry) × (stack_of stack.now ≡ meant r.0 ∷ stack_of r.1.now)) }
{
    match stack {
        [] => None,
        [top, rest @ ..] => {
            if same_kind(*top, kind) {
                return Some((*top, rest));
            }
            None
        }
    }
}

/// The topmost kind, and the rest.
pub fn one<'a, 's>(stack: &'s [Kind<'a>]) -> Option<(Kind<'a>, &'s [Kind<'a>])>
    ensures { IfSome result (λ r. stack_of stack.now ≡ meant r.0 ∷ stack_of r.1.now) }
{
    match stack {
        [] => None,
        [top, rest @ ..] => Some((*top, rest)),
    }
}

/// Two of one kind, and the rest.
fn two<'a, 's>(stack: &'s [Kind<'a>]) -> Option<(Kind<'a>, &'s [Kind<'a>])>
    ensures { IfSome result (λ r. stack_of stack.now ≡ meant r.0 ∷ meant r.0 ∷ stack_of r.1.now) }
{
    let (top, below) = one(stack)?;
    let (second, rest) = one_like(top, below)?;
    Some((second, rest))
}

/// The topmost operand, and what stands below all of them.
pub fn operands<'a, 's>(takes: Takes, stack: &'s [Kind<'a>]) -> Option<(Kind<'a>, &'s [Kind<'a>])>
    ensures { IfSome result (λ r. table.Stand takes (stack_of stack.now) (meant r.0) (stack_of r.1.now)) }
{
    match takes {
        Takes::Nothing => Some((Kind::Members, stack)),
        Takes::Integer => one_like(Kind::Integer, stack),
        Takes::Boolean => one_like(Kind::Boolean, stack),
        Takes::Ordinal => {
            let (kind, rest) = one(stack)?;
            if is_ordinal(kind) {
                return Some((kind, rest));
            }
            None
        }
        Takes::Integers => two_like(Kind::Integer, stack),
        Takes::Sets => two_like(Kind::Members, stack),
        Takes::Added => {
            let (kind, rest) = two(stack)?;
            if is_added(kind) {
                return Some((kind, rest));
            }
            None
        }
        Takes::Ordinals => {
            let (kind, rest) = two(stack)?;
            if is_ordinal(kind) {
                return Some((kind, rest));
            }
            None
        }
        Takes::Compared => {
            let (kind, rest) = two(stack)?;
            if is_compared(kind) {
                return Some((kind, rest));
            }
            None
        }
        Takes::Ends => {
            let (kind, below) = one(stack)?;
            let (_, rest) = one_like(Kind::Integer, below)?;
            if is_ordinal(kind) {
                return Some((kind, rest));
            }
            None
        }
        Takes::Member => member(stack),
    }
}

fn two_like<'a, 's>(kind: Kind<'a>, stack: &'s [Kind<'a>]) -> Option<(Kind<'a>, &'s [Kind<'a>])>
    ensures { IfSome result (λ r. (meant r.0 ≡ meant kind.entry) × (stack_of stack.now ≡ meant r.0 ∷ meant r.0 ∷ stack_of r.1.now)) }
{
    let (_, below) = one_like(kind, stack)?;
    one_like(kind, below)
}

fn member<'a, 's>(stack: &'s [Kind<'a>]) -> Option<(Kind<'a>, &'s [Kind<'a>])>
    ensures { IfSome result (λ r. IsTrue (spec.is_ordinal (meant r.0)) × (stack_of stack.now ≡ spec.Members ∷ meant r.0 ∷ stack_of r.1.now)) }
{
    let (_, below) = one_like(Kind::Members, stack)?;
    let (kind, rest) = one(below)?;
    if is_ordinal(kind) {
        return Some((kind, rest));
    }
    None
}
