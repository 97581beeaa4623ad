//! The nodes of a specification's tree, one module for each part of the grammar.
//!
//! A node has, in order, the names, nodes and choices of its production, and the span from its first
//! token to its last; a node without tokens has the span 0..0. It keeps each token that its production
//! does not imply: so it spells at most one list of tokens.

mod clause;
mod declaration;
mod expression;
mod name;
mod spans;
mod specification;
mod statement;
mod type_expr;

pub use clause::{AnyDom, Block, Clause, DelayHigh, Group, Label, NextState, TransBody};
pub use declaration::{BlockDecl, ConstDef, Formal, Formals, Routine, RoutineForm, TypeDef};
pub use expression::{
    Adding, Args, Elem, Expr, Factor, Multiplying, Relation, Selector, Simple, Term, Variable,
};
pub use name::{Name, NameList};
pub use specification::{
    Attr, Body, Channel, Decl, Disc, Head, Header, Init, Inter, InterGroup, IpDecl, ModvarDecl,
    ParamGroup, Params, Parts, Spec, StatesetDef, SysAttr, Trans,
};
pub use statement::{Case, Direction, Ip, Stmt, Stmts};
pub use type_expr::{Const, Fields, Ordinal, Sign, TypeExpr, TypedNames};
