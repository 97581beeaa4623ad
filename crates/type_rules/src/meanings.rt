//! What declared names mean.

ghost use Rattle.std.specs.Prelude.{◌≡◌};
ghost use Rattle.type_rules.specs.Meanings as spec;

use crate::denoted::at_fault;
use crate::types::{Denoted, Host, PascalType, Value};
use estelle_tree::{Items, Required, Sign};

/// A formal parameter: whether it is a variable parameter, and its type.
#[derive(Clone, Copy)]
pub struct Parameter {
    pub is_var: bool,
    pub type_: Option<PascalType>,
}

/// What a name means.
#[derive(Clone, Copy)]
pub enum Meaning {
    /// Nothing that has a type.
    Nothing,
    /// A constant: its type, and its value. A name of `any` has a type and no value.
    Constant {
        host: Option<Host>,
        value: Option<Value>,
    },
    TypeName(Denoted),
    /// A variable, a parameter or a field, with its type.
    Variable(Option<PascalType>),
    /// An array type, which is known by where it begins: the types of its index and of its components.
    ArrayType {
        index: Option<PascalType>,
        component: Option<PascalType>,
    },
    /// By where the specification or body begins that declares it.
    Procedure {
        body: u32,
    },
    /// With the type of its result.
    Function {
        type_: Option<PascalType>,
        body: u32,
    },
    RequiredFunction(Required),
    Interaction,
    Header,
    /// By where the name of its header is declared.
    Body {
        header: u32,
    },
    ModuleVariable,
    Ip,
}

/// What is declared: what its name means, and the parameters of a routine, an interaction or a header.
pub struct Entity {
    pub meaning: Meaning,
    pub parameters: Items<Parameter>,
}

impl Drop for Entity {
    fn drop(self) {
        let Entity {
            meaning: _,
            parameters: _,
        } = self;
    }
}

pub fn type_denoted(meaning: Meaning) -> Denoted
    ensures { result ≡ spec.type_denoted meaning }
{
    match meaning {
        Meaning::TypeName(denoted) => denoted,
        _ => at_fault(),
    }
}

pub fn variable_type(meaning: Meaning) -> Option<PascalType>
    ensures { result ≡ spec.variable_type meaning }
{
    match meaning {
        Meaning::Variable(type_) => type_,
        _ => None,
    }
}

/// The type of an array's index.
pub fn index_type(meaning: Meaning) -> Option<PascalType>
    ensures { result ≡ spec.index_type meaning }
{
    match meaning {
        Meaning::ArrayType { index, .. } => index,
        _ => None,
    }
}

/// The type of an array's components.
pub fn component_type(meaning: Meaning) -> Option<PascalType>
    ensures { result ≡ spec.component_type meaning }
{
    match meaning {
        Meaning::ArrayType { component, .. } => component,
        _ => None,
    }
}

/// Where the specification or body begins that declares a routine.
pub fn body_of(meaning: Meaning) -> u32
    ensures { result ≡ spec.body_of meaning }
{
    match meaning {
        Meaning::Procedure { body } | Meaning::Function { body, .. } => body,
        _ => 0,
    }
}

pub fn names_function(meaning: Meaning) -> bool
    ensures { result ≡ spec.names_function meaning }
{
    match meaning {
        Meaning::Function { .. } => true,
        _ => false,
    }
}

pub fn constant_host(meaning: Meaning) -> Option<Host>
    ensures { result ≡ spec.constant_host meaning }
{
    match meaning {
        Meaning::Constant { host, .. } => host,
        _ => None,
    }
}

pub fn constant_value(meaning: Meaning) -> Option<Value>
    ensures { result ≡ spec.constant_value meaning }
{
    match meaning {
        Meaning::Constant { value, .. } => value,
        _ => None,
    }
}

fn is_integer_host(host: Host) -> bool
    ensures { result ≡ spec.is_integer_host host }
{
    match host {
        Host::Integer => true,
        _ => false,
    }
}

/// The type of a constant behind a sign, which only an integer has.
pub fn signed_host(sign: Option<Sign>, host: Option<Host>) -> Option<Host>
    ensures { result ≡ spec.signed_host sign host }
{
    match (sign, host) {
        (None, host) => host,
        (Some(_), None) => None,
        (Some(_), Some(host)) => if is_integer_host(host) {
            Some(host)
        } else {
            None
        },
    }
}

fn negated_number(n: i64) -> i64
    ensures { result ≡ spec.negated_number n }
{
    if n < -i64::MAX {
        return i64::MAX;
    }
    -n
}

pub fn signed_number(sign: Option<Sign>, n: i64) -> i64
    ensures { result ≡ spec.signed_number sign n }
{
    match sign {
        Some(Sign::Minus) => negated_number(n),
        _ => n,
    }
}

/// The value of a constant behind a sign.
pub fn signed_value(sign: Option<Sign>, value: Option<Value>) -> Option<Value>
    ensures { result ≡ spec.signed_value sign value }
{
    match value {
        None => None,
        Some(value) => match signed_host(sign, Some(value.host)) {
            None => None,
            Some(host) => Some(Value {
                host,
                ordinal: signed_number(sign, value.ordinal),
            }),
        },
    }
}

/// A constant as it is declared.
pub fn constant(value: Option<Value>) -> Meaning
    ensures { result ≡ spec.constant value }
{
    match value {
        None => Meaning::Constant {
            host: None,
            value: None,
        },
        Some(value) => Meaning::Constant {
            host: Some(value.host),
            value: Some(value),
        },
    }
}
