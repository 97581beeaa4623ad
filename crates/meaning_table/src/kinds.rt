//! What names with rising numbers mean.

ghost use Rattle.std.specs.Prelude.{◌≡◌, IfOk};
ghost use Rattle.meaning_table.specs.Kinds as spec;

use estelle_model::{Host, Meaning, Type};
use pascal_values::Value;
use std::alloc::AllocError;

/// Of variables.
#[derive(Clone, Copy, Debug, PartialEq, Eq)]
pub enum VariableKind {
    Own,
    Exported,
    Local,
    Var,
}

/// Of what has a number alone.
#[derive(Clone, Copy, Debug, PartialEq, Eq)]
pub enum PlainKind {
    /// The values of an enumeration, with their host type.
    Value(Host),
    Field,
    Module,
    Ip,
    State,
}

pub fn variable_meaning<'a>(
    kind: VariableKind,
    denoter: &Type,
    number: u32,
) -> Result<Meaning<'a>, AllocError>
    ensures { IfOk result (λ m. m ≡ spec.variable_meaning kind denoter.now number) }
{
    let denoter = denoter.share()?;
    match kind {
        VariableKind::Own => Ok(Meaning::Own { number, denoter }),
        VariableKind::Exported => Ok(Meaning::Exported { number, denoter }),
        VariableKind::Local => Ok(Meaning::Local { number, denoter }),
        VariableKind::Var => Ok(Meaning::Var { number, denoter }),
    }
}

pub fn plain_meaning<'a>(kind: PlainKind, number: u32) -> Meaning<'a>
    ensures { result ≡ spec.plain_meaning kind number }
{
    match kind {
        PlainKind::Value(host) => Meaning::Constant {
            value: Value::Enum(number),
            host,
        },
        PlainKind::Field => Meaning::Field(number),
        PlainKind::Module => Meaning::Module(number),
        PlainKind::Ip => Meaning::Ip(number),
        PlainKind::State => Meaning::State(number),
    }
}
