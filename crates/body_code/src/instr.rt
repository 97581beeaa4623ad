//! Instructions, which act on a stack of values and places.

use pascal_values::{Fault, Value};

/// An interaction point. Those of an instance are numbered from 0, external ones first, in declaration order.
#[derive(Clone, Copy, Debug, PartialEq, Eq)]
pub enum Point {
    Own(u32),
    /// A point of the instance in a module variable.
    OfChild { modvar: u32, ip: u32 },
}

/// What `disconnect` names.
#[derive(Clone, Copy, Debug, PartialEq, Eq)]
pub enum Ends {
    Point(Point),
    /// All points of the instance in a module variable.
    Child(u32),
}

/// An instruction, one variant an opcode. Variables of a body and locals of a unit are numbered from 0, as are exports, module
/// variables, routines and interactions. A shape's number counts the required types and then the type expressions.
#[derive(Debug, Drop)]
pub enum Instr {
    /// Pushes a value.
    Push(Value),
    /// Pushes the place of a variable of the body.
    Var(u32),
    /// Pushes the place of a local.
    Loc(u32),
    /// Pushes the place that a `var` parameter holds.
    Ref(u32),
    /// Pushes the place of an export of the instance in a module variable.
    Exp {
        modvar: u32,
        export: u32,
    },
    /// Extends a place by a field.
    Field(u32),
    /// Pops an integer and extends a place by that index.
    Index {
        low: i64,
        high: i64,
    },
    /// Replaces a place by its value.
    Load,
    /// Pops a value and a place, and stores by a shape's number.
    Store(u32),
    /// Tests the range of the value on top by a shape's number.
    Fit(u32),
    Neg,
    Add,
    Sub,
    Mul,
    Div,
    Mod,
    Abs,
    Sqr,
    Odd,
    Eq,
    Ne,
    Lt,
    Le,
    Gt,
    Ge,
    Not,
    /// Pushes the empty set.
    Empty,
    /// Makes the set of one member.
    One,
    /// Makes the set of all members between two.
    Span,
    Unite,
    Meet,
    Minus,
    /// Tells whether a set has a member.
    Has,
    Succ,
    Pred,
    Ord,
    Chr,
    /// Goes to an address of the unit.
    Jump(u32),
    /// Pops a truth value and goes to an address where it is false.
    Jfalse(u32),
    /// Pops a truth value and goes to an address where it is true.
    Jtrue(u32),
    /// Takes a unit of the budget.
    Turn,
    /// Calls a routine of a body.
    Call {
        body: u32,
        routine: u32,
        arguments: u32,
    },
    /// Ends the unit.
    Ret,
    /// Faults.
    Fail(Fault),
    /// Pops a place and makes it unset.
    Blank,
    /// Makes a child of a body in a module variable (ISO/IEC 9074: `init`).
    Init {
        modvar: u32,
        body: u32,
        arguments: u32,
    },
    /// Releases the instance in a module variable.
    Release(u32),
    Connect(Point, Point),
    Disconnect(Ends),
    /// Attaches an own point to another one.
    Attach {
        upper: u32,
        lower: Point,
    },
    /// Detaches an own point.
    Detach(u32),
    /// Outputs an interaction at an own point.
    Output {
        ip: u32,
        interaction: u32,
        arguments: u32,
    },
}
