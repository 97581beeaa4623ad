//! Writing the listing of a code.

ghost use Rattle.std.specs.Prelude.{◌≡◌, ◌+◌, ◌<◌, ◌^◌, ◌∷◌, ◌++◌, [], length, OnOk, IfOk, flat_map};
ghost use Rattle.std.specs.List.{join_with_byte, enumerate_from};
ghost use Rattle.std.specs.Fmt.{decimal, signed_decimal};
ghost use Rattle.body_code.specs.Listing as spec;

use crate::code::Code;
use crate::instr::{Ends, Instr, Point};
use crate::instrs::Instrs;
use crate::unit::{CodeUnit, Heading};
use crate::writing::{put, put_integer, put_number};
use estelle_tree::Text;
use pascal_values::{Fault, write_value};
use std::alloc::{AllocError, Global};

/// The fault's name.
#[tactic(auto, unfolding(crate::specs::Listing::fault_name))]
fn fault_name(fault: Fault) -> &'static [u8]
    ensures { result.now ≡ spec.fault_name fault }
{
    match fault {
        Fault::DivideByZero => b"DivideByZero",
        Fault::ModNotPositive => b"ModNotPositive",
        Fault::Overflow => b"Overflow",
        Fault::Range => b"Range",
        Fault::Index => b"Index",
        Fault::Unset => b"Unset",
        Fault::NoCase => b"NoCase",
        Fault::StepLimit => b"StepLimit",
        Fault::CallDepth => b"CallDepth",
        Fault::NoModule => b"NoModule",
        Fault::ModuleTaken => b"ModuleTaken",
        Fault::LinkTaken => b"LinkTaken",
        Fault::LinkAbsent => b"LinkAbsent",
        Fault::DelayRange => b"DelayRange",
    }
}

#[tactic(auto, unfolding(crate::specs::Listing::point_text))]
fn put_point(out: &mut Vec<u8>, point: Point) -> Result<(), AllocError>
    ensures { OnOk result (out.new.items ≡ out.old.items ++ spec.point_text point) }
{
    match point {
        Point::Own(ip) => put_number(out, u64::from(ip)),
        Point::OfChild { modvar, ip } => {
            put_number(out, u64::from(modvar))?;
            put(out, b".")?;
            put_number(out, u64::from(ip))
        }
    }
}

#[tactic(auto, unfolding(crate::specs::Listing::ends_text))]
fn put_ends(out: &mut Vec<u8>, ends: &Ends) -> Result<(), AllocError>
    ensures { OnOk result (out.new.items ≡ out.old.items ++ spec.ends_text ends.now) }
{
    match ends {
        Ends::Point(point) => put_point(out, *point),
        Ends::Child(modvar) => put_number(out, u64::from(*modvar)),
    }
}

/// An opcode and a number.
fn put_one(out: &mut Vec<u8>, opcode: &[u8], number: u32) -> Result<(), AllocError>
    ensures { OnOk result (out.new.items ≡ out.old.items ++ (opcode.now ++ (32 ∷ decimal number))) }
{
    put(out, opcode)?;
    put(out, b" ")?;
    put_number(out, u64::from(number))
}

/// An opcode and the points that it names.
fn put_named_ends(out: &mut Vec<u8>, opcode: &[u8], ends: &Ends) -> Result<(), AllocError>
    ensures { OnOk result (out.new.items ≡ out.old.items ++ (opcode.now ++ (32 ∷ spec.ends_text ends.now))) }
{
    put(out, opcode)?;
    put(out, b" ")?;
    put_ends(out, ends)
}

/// An opcode and two numbers.
fn put_two(out: &mut Vec<u8>, opcode: &[u8], first: u32, second: u32) -> Result<(), AllocError>
    ensures { OnOk result (out.new.items ≡ out.old.items ++ (opcode.now ++ (32 ∷ (decimal first ++ (32 ∷ decimal second))))) }
{
    put_one(out, opcode, first)?;
    put(out, b" ")?;
    put_number(out, u64::from(second))
}

/// An opcode and three numbers.
fn put_three(
    out: &mut Vec<u8>,
    opcode: &[u8],
    first: u32,
    second: u32,
    third: u32,
) -> Result<(), AllocError>
    ensures { OnOk result (out.new.items ≡ out.old.items ++ (opcode.now ++ (32 ∷ (decimal first ++ (32 ∷ (decimal second ++ (32 ∷ decimal third))))))) }
{
    put_two(out, opcode, first, second)?;
    put(out, b" ")?;
    put_number(out, u64::from(third))
}

#[tactic(auto, unfolding(crate::specs::Listing::instr_fields))]
fn put_instr(out: &mut Vec<u8>, instr: &Instr) -> Result<(), AllocError>
    ensures { OnOk result (out.new.items ≡ out.old.items ++ join_with_byte 32 (spec.instr_fields instr.now)) }
{
    match instr {
        Instr::Push(value) => {
            put(out, b"push ")?;
            write_value(value, out)
        }
        Instr::Var(number) => put_one(out, b"var", *number),
        Instr::Loc(number) => put_one(out, b"loc", *number),
        Instr::Ref(number) => put_one(out, b"ref", *number),
        Instr::Exp { modvar, export } => put_two(out, b"exp", *modvar, *export),
        Instr::Field(number) => put_one(out, b"field", *number),
        Instr::Index { low, high } => {
            put(out, b"index ")?;
            put_integer(out, *low)?;
            put(out, b" ")?;
            put_integer(out, *high)
        }
        Instr::Store(shape) => put_one(out, b"store", *shape),
        Instr::Fit(shape) => put_one(out, b"fit", *shape),
        Instr::Load => put(out, b"load"),
        Instr::Neg => put(out, b"neg"),
        Instr::Add => put(out, b"add"),
        Instr::Sub => put(out, b"sub"),
        Instr::Mul => put(out, b"mul"),
        Instr::Div => put(out, b"div"),
        Instr::Mod => put(out, b"mod"),
        Instr::Abs => put(out, b"abs"),
        Instr::Sqr => put(out, b"sqr"),
        Instr::Odd => put(out, b"odd"),
        Instr::Eq => put(out, b"eq"),
        Instr::Ne => put(out, b"ne"),
        Instr::Lt => put(out, b"lt"),
        Instr::Le => put(out, b"le"),
        Instr::Gt => put(out, b"gt"),
        Instr::Ge => put(out, b"ge"),
        Instr::Not => put(out, b"not"),
        Instr::Empty => put(out, b"empty"),
        Instr::One => put(out, b"one"),
        Instr::Span => put(out, b"span"),
        Instr::Unite => put(out, b"unite"),
        Instr::Meet => put(out, b"meet"),
        Instr::Minus => put(out, b"minus"),
        Instr::Has => put(out, b"has"),
        Instr::Succ => put(out, b"succ"),
        Instr::Pred => put(out, b"pred"),
        Instr::Ord => put(out, b"ord"),
        Instr::Chr => put(out, b"chr"),
        Instr::Turn => put(out, b"turn"),
        Instr::Ret => put(out, b"ret"),
        Instr::Blank => put(out, b"blank"),
        Instr::Jump(address) => put_one(out, b"jump", *address),
        Instr::Jfalse(address) => put_one(out, b"jfalse", *address),
        Instr::Jtrue(address) => put_one(out, b"jtrue", *address),
        Instr::Call {
            body,
            routine,
            arguments,
        } => put_three(out, b"call", *body, *routine, *arguments),
        Instr::Fail(fault) => {
            put(out, b"fail ")?;
            put(out, fault_name(*fault))
        }
        Instr::Init {
            modvar,
            body,
            arguments,
        } => put_three(out, b"init", *modvar, *body, *arguments),
        Instr::Release(modvar) => put_one(out, b"release", *modvar),
        Instr::Connect(a, b) => {
            put(out, b"connect ")?;
            put_point(out, *a)?;
            put(out, b" ")?;
            put_point(out, *b)
        }
        Instr::Disconnect(ends) => put_named_ends(out, b"disconnect", ends),
        Instr::Attach { upper, lower } => {
            put_one(out, b"attach", *upper)?;
            put(out, b" ")?;
            put_point(out, *lower)
        }
        Instr::Detach(upper) => put_one(out, b"detach", *upper),
        Instr::Output {
            ip,
            interaction,
            arguments,
        } => put_three(out, b"output", *ip, *interaction, *arguments),
    }
}

fn put_instr_line(out: &mut Vec<u8>, address: usize, instr: &Instr) -> Result<(), AllocError>
    ensures { OnOk result (out.new.items ≡ out.old.items ++ spec.instr_line (address, instr.now)) }
{
    put_number(out, address as u64)?;
    put(out, b" ")?;
    put_instr(out, instr)?;
    put(out, b"\n")
}

/// Instructions with their addresses from a first one on.
fn put_instr_lines(out: &mut Vec<u8>, first: usize, instrs: &[Instr]) -> Result<(), AllocError>
    requires { first + length instrs.now < 2 ^ 64 }
    ensures { OnOk result (out.new.items ≡ out.old.items ++ flat_map spec.instr_line (enumerate_from first instrs.now)) }
{
    for i in 0..instrs.len() {
        put_instr_line(out, first + i, &instrs[i])?;
    }
    Ok(())
}

/// The instructions of a unit, with their addresses from 0.
fn put_instrs(out: &mut Vec<u8>, instrs: &Instrs) -> Result<(), AllocError>
    ensures { OnOk result (out.new.items ≡ out.old.items ++ flat_map spec.instr_line (enumerate_from 0 instrs.now)) }
{
    let (own, rest) = instrs.parts();
    put_instr_lines(out, 0, own)?;
    put_instr_lines(out, own.len(), rest)
}

/// A number and a name behind a word.
fn put_named(out: &mut Vec<u8>, word: &[u8], number: u32, name: &[u8]) -> Result<(), AllocError>
    ensures { OnOk result (out.new.items ≡ out.old.items ++ (word.now ++ (32 ∷ (decimal number ++ (32 ∷ name.now))))) }
{
    put_one(out, word, number)?;
    put(out, b" ")?;
    put(out, name)
}

#[tactic(auto, unfolding(crate::specs::Listing::heading_fields))]
fn put_heading(out: &mut Vec<u8>, heading: &Heading) -> Result<(), AllocError>
    ensures { OnOk result (out.new.items ≡ out.old.items ++ join_with_byte 32 (spec.heading_fields heading.now)) }
{
    match heading {
        Heading::Body { body, name } => put_named(out, b"body", *body, name.items()),
        Heading::Routine { routine, name } => put_named(out, b"routine", *routine, name.items()),
        Heading::Initialize => put_one(out, b"initialize", 0),
        Heading::Guard { trans } => put_one(out, b"guard", *trans),
        Heading::Delay { trans } => put_one(out, b"delay", *trans),
        Heading::Block { trans } => put_one(out, b"block", *trans),
    }
}

fn put_unit(out: &mut Vec<u8>, unit: &CodeUnit) -> Result<(), AllocError>
    ensures { OnOk result (out.new.items ≡ out.old.items ++ spec.unit_lines unit.now) }
{
    put_heading(out, &unit.heading)?;
    put(out, b"\n")?;
    put_instrs(out, &unit.instrs)
}

/// The listing of a code: for each unit a line for its heading, and below it a line for each instruction, with its address from 0,
/// its opcode and its arguments, and with one space between fields. Locals are not listed.
pub fn listing(alloc: Global, code: &Code) -> Result<Text, AllocError>
    ensures { IfOk result (λ t. t ≡ spec.listing code.now) }
{
    let mut out = Vec::new(alloc);
    for unit in code.items() {
        put_unit(&mut out, unit)?;
    }
    Ok(Text::of(out))
}
