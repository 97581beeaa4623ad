ghost use Rattle.std.specs.Prelude.{◌≡◌, ◌∷◌, slice_index_or};
ghost use Rattle.pascal_values.specs.declared.value.Value.TheVariants.{Unset};
ghost use Rattle.pascal_values.specs.Values.{parts_of, with_part};

use crate::members::Members;
use crate::way::{exchanged, replace_in};
use estelle_lists::{Boxed, Items};

/// A value of Pascal, in which parts may be unset.
#[derive(Debug)]
pub enum Value {
    Unset,
    Int(i64),
    Bool(bool),
    /// A character by its code.
    Char(u8),
    /// A value of an enumeration by its ordinal.
    Enum(u32),
    Set(Members),
    /// An array's items from the lowest index on.
    Array(Values),
    /// A record's fields in the order of their declaration.
    Fields(Values),
}

impl Drop for Value {
    fn drop(self) {
        match self {
            Value::Unset => {}
            Value::Int(_) => {}
            Value::Bool(_) => {}
            Value::Char(_) => {}
            Value::Enum(_) => {}
            Value::Set(_) => {}
            Value::Array(_) => {}
            Value::Fields(_) => {}
        }
    }
}

impl Value {
    /// The value with another part at the way, or as it is where the way leads nowhere.
    #[cycle(replaced)]
    pub(crate) fn with_part(self, way: &[u32], new: Value) -> Value
        ensures { result ≡ with_part self way.now new }
    {
        match way {
            [] => new,
            [number, rest @ ..] => self.with_below(*number, rest, new),
        }
    }

    /// The value with another part at a way below its part with a number, or as it is where the way leads nowhere.
    #[cycle(replaced)]
    pub fn with_below(self, number: u32, way: &[u32], new: Value) -> Value
        ensures { result ≡ with_part self (number ∷ way.now) new }
    {
        match self {
            Value::Array(mut parts) => {
                replace_in(&mut parts, number as usize, way, new);
                Value::Array(parts)
            }
            Value::Fields(mut parts) => {
                replace_in(&mut parts, number as usize, way, new);
                Value::Fields(parts)
            }
            other => other,
        }
    }

    /// The part with a number, unset where there is none.
    pub fn into_part(self, number: usize) -> Value
        ensures { result ≡ slice_index_or (parts_of self) number Unset }
    {
        match self {
            Value::Array(parts) => exchanged(parts, number),
            Value::Fields(parts) => exchanged(parts, number),
            _ => Value::Unset,
        }
    }
}

/// Values in order.
pub type Values = Items<Value>;

/// A type as far as its values go: the bounds are ordinals, and belong to it.
#[derive(Debug, Drop)]
pub enum Shape {
    Int {
        low: i64,
        high: i64,
    },
    Bool {
        low: u32,
        high: u32,
    },
    Char {
        low: u32,
        high: u32,
    },
    Enum {
        low: u32,
        high: u32,
    },
    /// A set whose members lie within these bounds.
    Set {
        low: u32,
        high: u32,
    },
    /// An array by the bounds of its index and the shape of its items.
    Array {
        low: i64,
        high: i64,
        item: Boxed<Shape>,
    },
    Fields(Items<Shape>),
}

/// An operator that compares. Of sets `Le` is "is a subset of", and `Ge` "includes".
#[derive(Clone, Copy, Debug, PartialEq, Eq)]
pub enum Relation {
    Eq,
    Ne,
    Lt,
    Le,
    Gt,
    Ge,
}
