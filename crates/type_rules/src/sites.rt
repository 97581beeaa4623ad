//! The kinds of places that the rules on types speak of.

use crate::types::{Denoted, Host, PascalType, Value};
use estelle_tree::Span;

/// The operators of two operands, by what they act on (ISO 7185, 6.7.2).
#[derive(Clone, Copy)]
pub enum Operator {
    /// `+ - *`: integers or sets.
    Arithmetic,
    /// `div mod`: integers.
    Division,
    /// `and or`: booleans.
    Logical,
    /// `= <>`: ordinals and sets.
    Equality,
    /// `< >`: ordinals.
    Order,
    /// `<= >=`: ordinals and sets.
    Inclusion,
    /// `in`: an ordinal and a set.
    Membership,
}

/// What the place of an expression wants of its type.
#[derive(Clone, Copy)]
pub enum Wanted {
    AnInteger,
    ABoolean,
    AnOrdinal,
    AnArray,
    /// What fits a variable of this type.
    Fitting(PascalType),
}

/// How an expression accesses a variable.
#[derive(Clone, Copy)]
pub enum Access {
    /// It is no variable.
    NoVariable,
    OwnVariable,
    /// An exported variable of a child, or a component of one.
    OfChild,
}

/// An expression where it stands, with its type; it has none where an operation in it is at fault.
#[derive(Clone, Copy)]
pub struct Typed {
    pub at: Span,
    pub type_: Option<PascalType>,
    pub access: Access,
}

/// Some members of a set constructor: the base that the first gives, and whether the others fit it.
#[derive(Clone, Copy)]
pub enum Members {
    NoMember,
    SomeMembers { base: Option<Host>, fit: bool },
}

/// A place that a rule speaks of, with what the rule asks for.
#[derive(Clone, Copy)]
pub enum Site {
    /// An operation of two operands.
    Operation {
        operator: Operator,
        left: Typed,
        right: Typed,
    },
    /// An operand, condition, bound, delay, index, member, assigned value or value argument.
    Wants {
        wanted: Wanted,
        operand: Typed,
    },
    /// A constant, which must have a value, and the one that it has.
    ConstantAt {
        at: Span,
        value: Option<Value>,
    },
    /// A constant of `priority`, which must have a type.
    PriorityAt {
        at: Span,
        host: Option<Host>,
    },
    /// A call, `init` or `output`, by the name that is called: how many parameters and arguments there are.
    CallOf {
        at: Span,
        parameters: usize,
        arguments: usize,
    },
    /// A routine is called: the name in its declaration, and where the specification or body begins that declares it.
    RoutineCalled {
        at: Span,
        declared: Option<Span>,
        body: u32,
    },
    /// A variable or a module variable is named: the name in its declaration.
    VariableNamed {
        at: Span,
        declared: Option<Span>,
    },
    /// An argument for a variable parameter of this type.
    ForVariable {
        parameter: Option<PascalType>,
        actual: Typed,
    },
    /// A formal variable parameter.
    VarFormal(Span),
    /// A statement assigns a variable or function: the name in its declaration, and whether it is a function.
    Assigns {
        at: Span,
        declared: Option<Span>,
        is_function: bool,
    },
    /// A statement calls a procedure.
    CallsProcedure(Span),
    /// A statement of Estelle.
    EstelleStatement(Span),
    /// A type expression: whether it is an empty subrange or one of bounds that do not fit, a set with a wrong base or
    /// an array with a wrong index; and what it denotes.
    TypeAt {
        at: Span,
        is_at_fault: bool,
        denoted: Denoted,
    },
    /// A label of a `case`: the type of its selector, its own value, and whether an earlier label has that too.
    LabelAt {
        at: Span,
        selector: Option<PascalType>,
        value: Option<Value>,
        is_repeated: bool,
    },
    /// The result type of a function, by its name.
    ResultAt {
        at: Span,
        type_: Option<PascalType>,
    },
    /// The variable of a `for`.
    CountedBy {
        at: Span,
        type_: Option<PascalType>,
    },
}

/// A routine, by where it stands, and its name in its declaration.
#[derive(Clone, Copy)]
pub struct RoutineAt {
    pub span: Span,
    pub name: Span,
    pub is_function: bool,
}

/// What a place stands in: the specification or body, by where it begins, and the routine.
#[derive(Clone, Copy)]
pub struct Place {
    pub body: u32,
    pub routine: Option<RoutineAt>,
}

/// A site with what it stands in.
#[derive(Clone, Copy)]
pub struct PlacedSite {
    pub place: Place,
    pub site: Site,
}
