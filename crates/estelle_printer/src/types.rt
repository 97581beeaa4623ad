//! Names, constants and types.

ghost use Rattle.std.specs.Prelude.{◌≡◌, OnOk};
ghost use Rattle.estelle_tree.specs.declared.kind.Kind.TheVariants as k;
ghost use Rattle.estelle_printer.specs.Forms.{separated};
ghost use Rattle.estelle_printer.specs.TypeTokens as spec;
ghost use Rattle.estelle_printer.specs.Writing.{write};

use crate::node::{Node, separated};
use crate::writer::Writer;
use estelle_tree::{
    Const, Fields, Kind, Name, NameList, Ordinal, Sequence, Sign, TypeExpr, TypedNames,
};
use std::alloc::AllocError;

impl Node for Name {
    ghost tokens = { spec.name };

    fn write(&self, out: &mut Writer) -> Result<(), AllocError> {
        out.word(&self.word)
    }
}

impl Node for NameList {
    ghost tokens = { spec.names };

    fn write(&self, out: &mut Writer) -> Result<(), AllocError> {
        separated(Kind::Comma, self.names.items(), out)
    }
}

/// `["+" | "-"]`
pub fn write_sign(sign: Option<Sign>, out: &mut Writer) -> Result<(), AllocError>
    ensures { OnOk result (out.new ≡ write out.old (spec.sign sign)) }
{
    match sign {
        Some(Sign::Plus) => out.mark(Kind::Plus),
        Some(Sign::Minus) => out.mark(Kind::Minus),
        None => Ok(()),
    }
}

impl Node for Const {
    ghost tokens = { spec.constant };

    fn write(&self, out: &mut Writer) -> Result<(), AllocError> {
        match self {
            Const::Number { sign, value, .. } => {
                write_sign(*sign, out)?;
                out.number(*value)
            }
            Const::Name { sign, name, .. } => {
                write_sign(*sign, out)?;
                name.write(out)
            }
            Const::Char { value, .. } => out.char(*value),
        }
    }
}

impl Node for Ordinal {
    ghost tokens = { spec.ordinal_type };

    fn write(&self, out: &mut Writer) -> Result<(), AllocError> {
        match self {
            Ordinal::Name(name) => name.write(out),
            Ordinal::Enumeration { names, .. } => {
                out.mark(Kind::OpenParenthesis)?;
                names.write(out)?;
                out.mark(Kind::CloseParenthesis)
            }
            Ordinal::Subrange { low, high, .. } => {
                low.write(out)?;
                out.mark(Kind::Dots)?;
                high.write(out)
            }
        }
    }
}

#[cycle(types)]
fn write_type(type_expr: &TypeExpr, out: &mut Writer) -> Result<(), AllocError>
    ensures { OnOk result (out.new ≡ write out.old (spec.type_expr type_expr.now)) }
{
    match type_expr {
        TypeExpr::Ordinal(ordinal) => ordinal.write(out),
        TypeExpr::Array {
            packed,
            indices,
            component,
            ..
        } => {
            out.flag(Kind::Packed, *packed)?;
            out.mark(Kind::Array)?;
            out.mark(Kind::OpenBracket)?;
            separated(Kind::Comma, indices.items(), out)?;
            out.mark(Kind::CloseBracket)?;
            out.mark(Kind::Of)?;
            write_type(component.get(), out)
        }
        TypeExpr::Fields { packed, fields, .. } => {
            out.flag(Kind::Packed, *packed)?;
            out.mark(Kind::Record)?;
            write_fields(fields, out)?;
            out.mark(Kind::End)
        }
        TypeExpr::Set { packed, base, .. } => {
            out.flag(Kind::Packed, *packed)?;
            out.mark(Kind::Set)?;
            out.mark(Kind::Of)?;
            base.write(out)
        }
    }
}

#[cycle(types)]
fn write_fields(fields: &Fields, out: &mut Writer) -> Result<(), AllocError>
    ensures { OnOk result (out.new ≡ write out.old (spec.fields fields.now)) }
{
    write_sections(fields.sections.items(), out)?;
    out.flag(Kind::Semicolon, fields.semicolon)
}

#[cycle(types)]
fn write_sections(sections: &[TypedNames], out: &mut Writer) -> Result<(), AllocError>
    ensures { OnOk result (out.new ≡ write out.old (separated k.Semicolon spec.typed_names sections.now)) }
{
    for (place, section) in sections.iter().enumerate() {
        out.flag(Kind::Semicolon, place != 0)?;
        write_typed_names(section, out)?;
    }
    Ok(())
}

#[cycle(types)]
fn write_typed_names(typed: &TypedNames, out: &mut Writer) -> Result<(), AllocError>
    ensures { OnOk result (out.new ≡ write out.old (spec.typed_names typed.now)) }
{
    typed.names.write(out)?;
    out.mark(Kind::Colon)?;
    write_type(&typed.type_expr, out)
}

impl Node for TypeExpr {
    ghost tokens = { spec.type_expr };

    fn write(&self, out: &mut Writer) -> Result<(), AllocError> {
        write_type(self, out)
    }
}

impl Node for TypedNames {
    ghost tokens = { spec.typed_names };

    fn write(&self, out: &mut Writer) -> Result<(), AllocError> {
        write_typed_names(self, out)
    }
}
