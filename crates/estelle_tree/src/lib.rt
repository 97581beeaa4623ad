//! Specifications as trees, their tokens, and the small types that every layer shares.
#![tactic(auto)]

mod kind;
mod laws;
mod link;
mod names;
mod path;
mod required;
mod span;
mod text;
mod token;
mod transition;
mod tree;
mod word;

pub use estelle_lists::{Boxed, Items, Sequence, SequenceMut};
pub use kind::{Kind, RESERVED, is_identifier, kind_of};
pub use laws::prefixes_begin;
pub use link::{IpAddr, Link, LinkKind};
pub use names::{Names, Use};
pub use path::{Path, PathRoom};
pub use required::{IDENTIFIERS, Required, RequiredIdentifier, required_identifier};
pub use span::Span;
pub use text::Text;
pub use token::{Placed, Symbol, Token};
pub use transition::{Pair, Wanted};
pub use tree::{
    Adding, AnyDom, Args, Attr, Block, BlockDecl, Body, Case, Channel, Clause, Const, ConstDef,
    Decl, DelayHigh, Direction, Disc, Elem, Expr, Factor, Fields, Formal, Formals, Group, Head,
    Header, Init, Inter, InterGroup, Ip, IpDecl, Label, ModvarDecl, Multiplying, Name, NameList,
    NextState, Ordinal, ParamGroup, Params, Parts, Relation, Routine, RoutineForm, Selector, Sign,
    Simple, Spec, StatesetDef, Stmt, Stmts, SysAttr, Term, Trans, TransBody, TypeDef, TypeExpr,
    TypedNames, Variable,
};
pub use word::Word;
