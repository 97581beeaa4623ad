//! Nodes, and what they stand in, where they stand in a tree.

use estelle_tree::{
    Args, Block, Channel, Clause, Const, ConstDef, Decl, Expr, Header, Init, Ip, IpDecl,
    ModvarDecl, Name, NameList, Routine, Span, StatesetDef, SysAttr, Trans, TypeDef, TypedNames,
    Variable,
};

/// What a node stands in.
#[derive(Clone, Copy)]
pub struct Within<'a> {
    /// The header of the body; none in a specification itself.
    pub header: Option<&'a Name>,
    /// The attribute of the specification itself.
    pub attr: Option<SysAttr>,
    /// The specification or the body.
    pub span: Span,
    pub routine: Option<&'a Routine>,
    /// Whether a clause `when` holds for it.
    pub received: bool,
    /// Whether a clause `delay` holds for it.
    pub delayed: bool,
}

/// A node, with what stands in it but for statements, clauses and bodies, which are visited by themselves.
#[derive(Clone, Copy)]
pub enum Node<'a> {
    /// A specification or a body begins, with these declarations and transitions. Its routines are visible in all of it.
    Begins {
        decls: &'a [Decl],
        trans: &'a [Trans],
    },
    /// A part `const`, of a body, a routine or a block; in the same way types and variables.
    Constants {
        defs: &'a [ConstDef],
    },
    Types {
        defs: &'a [TypeDef],
    },
    Variables {
        vars: &'a [TypedNames],
    },
    Channel(&'a Channel),
    Header(&'a Header),
    Body {
        name: &'a Name,
        header: &'a Name,
        span: Span,
    },
    /// Interaction points that a body declares. Those of a header stand in it.
    Ips {
        ips: &'a [IpDecl],
    },
    ModuleVariables {
        modvars: &'a [ModvarDecl],
    },
    States(&'a NameList),
    StateSets {
        sets: &'a [StatesetDef],
    },
    Routine(&'a Routine),
    Initializes(&'a Init),
    /// From a word `trans` on.
    Transitions {
        span: Span,
    },
    /// A clause, before what it holds for.
    ClauseBegins(&'a Clause),
    BlockBegins(&'a Block),
    Assigns {
        variable: &'a Variable,
        value: &'a Expr,
        span: Span,
    },
    Calls {
        name: &'a Name,
        args: &'a Option<Args>,
        span: Span,
    },
    /// The condition of an `if`, a `while` or a `repeat`.
    Tests {
        condition: &'a Expr,
    },
    /// A `for`, before its statement.
    Counts {
        variable: &'a Name,
        first: &'a Expr,
        last: &'a Expr,
        span: Span,
    },
    /// The selector of a `case`.
    Selects {
        selector: &'a Expr,
    },
    Labels {
        labels: &'a [Const],
    },
    Inits {
        modvar: &'a Name,
        body: &'a Name,
        args: &'a Option<Args>,
        span: Span,
    },
    Releases {
        modvar: &'a Name,
        span: Span,
    },
    Connects {
        first: &'a Ip,
        second: &'a Ip,
        span: Span,
    },
    Disconnects {
        ip: &'a Ip,
        span: Span,
    },
    Attaches {
        own: &'a Name,
        modvar: &'a Name,
        ip: &'a Name,
        span: Span,
    },
    Detaches {
        own: &'a Name,
        span: Span,
    },
    Outputs {
        ip: &'a Name,
        interaction: &'a Name,
        args: &'a Option<Args>,
        span: Span,
    },
}
