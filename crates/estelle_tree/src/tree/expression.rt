use crate::tree::{Name, Sign};
use crate::{Boxed, Items, Span};

/// A relational operator (ISO 7185, 6.7.2.1).
///
/// `"=" | "<>" | "<" | "<=" | ">" | ">=" | in`
#[derive(Clone, Copy, Debug, PartialEq, Eq)]
pub enum Relation {
    Equal,
    NotEqual,
    Less,
    AtMost,
    Greater,
    AtLeast,
    /// `in`
    Member,
}

/// An adding operator (ISO 7185, 6.7.2.1).
///
/// `"+" | "-" | or`
#[derive(Clone, Copy, Debug, PartialEq, Eq)]
pub enum Adding {
    Plus,
    Minus,
    Or,
}

/// A multiplying operator (ISO 7185, 6.7.2.1).
///
/// `"*" | div | mod | and`
#[derive(Clone, Copy, Debug, PartialEq, Eq)]
pub enum Multiplying {
    Star,
    Div,
    Mod,
    And,
}

/// An expression (ISO 7185, 6.7.1).
///
/// `Expr = Simple [("=" | "<>" | "<" | "<=" | ">" | ">=" | in) Simple]`
#[cycle(expressions)]
pub struct Expr {
    pub left: Simple,
    pub right: Option<(Relation, Simple)>,
    pub span: Span,
}

impl Drop for Expr {
    #[cycle(drop_expressions)]
    fn drop(self) {
        let Expr {
            left: _,
            right: _,
            span: _,
        } = self;
    }
}

/// A simple expression (ISO 7185, 6.7.1).
///
/// `Simple = ["+" | "-"] Term {("+" | "-" | or) Term}`
#[cycle(expressions)]
pub struct Simple {
    pub sign: Option<Sign>,
    pub first: Term,
    pub others: Items<(Adding, Term)>,
    pub span: Span,
}

impl Drop for Simple {
    #[cycle(drop_expressions)]
    fn drop(self) {
        let Simple {
            sign: _,
            first: _,
            others: _,
            span: _,
        } = self;
    }
}

/// A term (ISO 7185, 6.7.1).
///
/// `Term = Factor {("*" | div | mod | and) Factor}`
#[cycle(expressions)]
pub struct Term {
    pub first: Factor,
    pub others: Items<(Multiplying, Factor)>,
    pub span: Span,
}

impl Drop for Term {
    #[cycle(drop_expressions)]
    fn drop(self) {
        let Term {
            first: _,
            others: _,
            span: _,
        } = self;
    }
}

/// A factor (ISO 7185, 6.7.1).
///
/// `Factor = NUMBER | CHAR | Variable | NAME "(" Args ")" | "(" Expr ")" | not Factor
///         | "[" [Elem {"," Elem}] "]"`
#[cycle(expressions)]
pub enum Factor {
    /// `NUMBER`
    Number { value: i64, span: Span },
    /// `CHAR`
    Char { value: u8, span: Span },
    /// `Variable`, with the span of its variable. A constant and a function without arguments have
    /// this form too.
    Variable(Variable),
    /// `NAME "(" Args ")"`: a function designator (ISO 7185, 6.7.3).
    Call { name: Name, args: Args, span: Span },
    /// `"(" Expr ")"`
    Paren { inner: Boxed<Expr>, span: Span },
    /// `not Factor`
    Not { operand: Boxed<Factor>, span: Span },
    /// `"[" [Elem {"," Elem}] "]"`: a set constructor.
    Set { elems: Items<Elem>, span: Span },
}

impl Drop for Factor {
    #[cycle(drop_expressions)]
    fn drop(self) {
        match self {
            Factor::Number { value: _, span: _ } => {}
            Factor::Char { value: _, span: _ } => {}
            Factor::Variable(_) => {}
            Factor::Call {
                name: _,
                args: _,
                span: _,
            } => {}
            Factor::Paren { inner: _, span: _ } => {}
            Factor::Not {
                operand: _,
                span: _,
            } => {}
            Factor::Set { elems: _, span: _ } => {}
        }
    }
}

/// A member designator (ISO 7185, 6.7.1).
///
/// `Elem = Expr [".." Expr]`
#[cycle(expressions)]
pub struct Elem {
    pub first: Expr,
    pub last: Option<Expr>,
    pub span: Span,
}

impl Drop for Elem {
    #[cycle(drop_expressions)]
    fn drop(self) {
        let Elem {
            first: _,
            last: _,
            span: _,
        } = self;
    }
}

/// The actual parameters of a call, an `init` or an `output`, without their parentheses
/// (ISO 7185, 6.7.3).
///
/// `Args = Expr {"," Expr}`
#[cycle(expressions)]
pub struct Args {
    pub exprs: Items<Expr>,
    pub span: Span,
}

impl Drop for Args {
    #[cycle(drop_expressions)]
    fn drop(self) {
        let Args { exprs: _, span: _ } = self;
    }
}

/// A variable access (ISO 7185, 6.5.1).
///
/// `Variable = NAME {"[" Expr {"," Expr} "]" | "." NAME}`
#[cycle(expressions)]
pub struct Variable {
    pub name: Name,
    pub selectors: Items<Selector>,
    pub span: Span,
}

impl Drop for Variable {
    #[cycle(drop_expressions)]
    fn drop(self) {
        let Variable {
            name: _,
            selectors: _,
            span: _,
        } = self;
    }
}

/// What selects a component (ISO 7185, 6.5.3), or an exported variable of a child.
#[cycle(expressions)]
pub enum Selector {
    /// `"[" Expr {"," Expr} "]"` (ISO 7185, 6.5.3.2)
    Index(Items<Expr>),
    /// `"." NAME` (ISO 7185, 6.5.3.3)
    Field(Name),
}

impl Drop for Selector {
    #[cycle(drop_expressions)]
    fn drop(self) {
        match self {
            Selector::Index(_) => {}
            Selector::Field(_) => {}
        }
    }
}
