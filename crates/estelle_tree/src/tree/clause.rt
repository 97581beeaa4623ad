use crate::tree::{BlockDecl, Const, Expr, Name, NameList, Ordinal, Stmts};
use crate::{Items, Span};

/// A label, which nothing refers to (ISO/IEC 9074: the name of a transition).
///
/// `Label = name NAME ":"`
pub struct Label {
    pub name: Name,
    pub span: Span,
}

impl Drop for Label {
    fn drop(self) {
        let Label { name: _, span: _ } = self;
    }
}

/// The block of a transition or of an `initialize` (ISO/IEC 9074).
///
/// `Block = [Label] {BlockDecl} [Label] begin Stmts end ";"`, with at most one label
pub struct Block {
    /// A label before the declarations, or where there are none.
    pub label: Option<Label>,
    pub decls: Items<BlockDecl>,
    /// A label after the declarations.
    pub late_label: Option<Label>,
    pub body: Stmts,
    pub span: Span,
}

impl Drop for Block {
    fn drop(self) {
        let Block {
            label: _,
            decls: _,
            late_label: _,
            body: _,
            span: _,
        } = self;
    }
}

/// What stands behind `trans`, and behind a clause: a block, or groups of clauses (ISO/IEC 9074).
///
/// `TransBody = Block | {Group}+`
#[cycle(groups)]
pub enum TransBody {
    /// `Block`, with the span of its block.
    Block(Block),
    /// `{Group}+`
    Groups { groups: Items<Group>, span: Span },
}

impl Drop for TransBody {
    #[cycle(drop_groups)]
    fn drop(self) {
        match self {
            TransBody::Block(_) => {}
            TransBody::Groups { groups: _, span: _ } => {}
        }
    }
}

/// A clause with the block or the groups that it holds for (ISO/IEC 9074: nested transitions).
///
/// `Group = Clause (Block | {Group}+)`
#[cycle(groups)]
pub struct Group {
    pub clause: Clause,
    pub body: TransBody,
    pub span: Span,
}

impl Drop for Group {
    #[cycle(drop_groups)]
    fn drop(self) {
        let Group {
            clause: _,
            body: _,
            span: _,
        } = self;
    }
}

/// A clause of a transition (ISO/IEC 9074).
///
/// `Clause = from Names | to (NAME | same) | when NAME "." NAME ["(" Names ")"] | provided Expr
///         | priority Const | any AnyDom {";" AnyDom} do | delay "(" Expr ["," (Expr | "*")] ")"`
pub enum Clause {
    /// `from Names`: states and state sets.
    From {
        states: NameList,
        span: Span,
    },
    /// `to (NAME | same)`
    To {
        state: NextState,
        span: Span,
    },
    /// `when NAME "." NAME ["(" Names ")"]`: an ip, an interaction, its parameters.
    When {
        ip: Name,
        interaction: Name,
        params: Option<NameList>,
        span: Span,
    },
    /// `provided Expr`
    Provided {
        condition: Expr,
        span: Span,
    },
    /// `priority Const`
    Priority {
        value: Const,
        span: Span,
    },
    /// `any AnyDom {";" AnyDom} do`
    Any {
        domains: Items<AnyDom>,
        span: Span,
    },
    /// `delay "(" Expr ["," (Expr | "*")] ")"`
    Delay {
        low: Expr,
        high: Option<DelayHigh>,
        span: Span,
    },
}

impl Drop for Clause {
    fn drop(self) {
        match self {
            Clause::From { states: _, span: _ } => {}
            Clause::To { state: _, span: _ } => {}
            Clause::When {
                ip: _,
                interaction: _,
                params: _,
                span: _,
            } => {}
            Clause::Provided {
                condition: _,
                span: _,
            } => {}
            Clause::Priority { value: _, span: _ } => {}
            Clause::Any {
                domains: _,
                span: _,
            } => {}
            Clause::Delay {
                low: _,
                high: _,
                span: _,
            } => {}
        }
    }
}

/// Where a `to` clause leads.
///
/// `NAME | same`
pub enum NextState {
    Name(Name),
    Same,
}

impl Drop for NextState {
    fn drop(self) {
        match self {
            NextState::Name(_) => {}
            NextState::Same => {}
        }
    }
}

/// The second value of a `delay` clause.
///
/// `Expr | "*"`
pub enum DelayHigh {
    Expr(Expr),
    Star,
}

impl Drop for DelayHigh {
    fn drop(self) {
        match self {
            DelayHigh::Expr(_) => {}
            DelayHigh::Star => {}
        }
    }
}

/// The names of an `any` clause that have one domain (ISO/IEC 9074).
///
/// `AnyDom = Names ":" Ord`
pub struct AnyDom {
    pub names: NameList,
    pub domain: Ordinal,
    pub span: Span,
}

impl Drop for AnyDom {
    fn drop(self) {
        let AnyDom {
            names: _,
            domain: _,
            span: _,
        } = self;
    }
}
