use crate::tree::{Args, Const, Expr, Name, Variable};
use crate::{Boxed, Items, Span};

/// A statement sequence (ISO 7185, 6.8.3.1).
///
/// `Stmts = Stmt {";" Stmt}`
#[cycle(statements)]
pub struct Stmts {
    pub stmts: Items<Stmt>,
    /// 0..0 where the only statement is empty.
    pub span: Span,
}

impl Drop for Stmts {
    #[cycle(drop_statements)]
    fn drop(self) {
        let Stmts { stmts: _, span: _ } = self;
    }
}

/// A statement (ISO 7185, 6.8; from `Init` on, ISO/IEC 9074).
///
/// `Stmt = | Variable ":=" Expr | NAME ["(" Args ")"] | begin Stmts end
///       | if Expr then Stmt [else Stmt] | while Expr do Stmt | repeat Stmts until Expr
///       | for NAME ":=" Expr (to | downto) Expr do Stmt
///       | case Expr of Case {";" Case} [";"] end
///       | init NAME with NAME ["(" Args ")"] | release NAME | connect Ip to Ip | disconnect Ip
///       | attach NAME to NAME "." NAME | detach NAME | output NAME "." NAME ["(" Args ")"]`
#[cycle(statements)]
pub enum Stmt {
    /// No token, and so the span 0..0 (ISO 7185, 6.8.2.1).
    Empty,
    /// `Variable ":=" Expr` (ISO 7185, 6.8.2.2)
    Assign {
        variable: Variable,
        value: Expr,
        span: Span,
    },
    /// `NAME ["(" Args ")"]` (ISO 7185, 6.8.2.3)
    Call {
        name: Name,
        args: Option<Args>,
        span: Span,
    },
    /// `begin Stmts end` (ISO 7185, 6.8.3.2)
    Begin {
        stmts: Stmts,
        span: Span,
    },
    /// `if Expr then Stmt [else Stmt]` (ISO 7185, 6.8.3.4)
    If {
        condition: Expr,
        then_part: Boxed<Stmt>,
        else_part: Option<Boxed<Stmt>>,
        span: Span,
    },
    /// `while Expr do Stmt` (ISO 7185, 6.8.3.8)
    While {
        condition: Expr,
        body: Boxed<Stmt>,
        span: Span,
    },
    /// `repeat Stmts until Expr` (ISO 7185, 6.8.3.7)
    Repeat {
        stmts: Stmts,
        condition: Expr,
        span: Span,
    },
    /// `for NAME ":=" Expr (to | downto) Expr do Stmt` (ISO 7185, 6.8.3.9)
    Count {
        variable: Name,
        first: Expr,
        direction: Direction,
        last: Expr,
        body: Boxed<Stmt>,
        span: Span,
    },
    /// `case Expr of Case {";" Case} [";"] end` (ISO 7185, 6.8.3.5)
    Case {
        selector: Expr,
        cases: Items<Case>,
        /// Whether a semicolon stands after the last case.
        semicolon: bool,
        span: Span,
    },
    /// `init NAME with NAME ["(" Args ")"]`: a module variable and a body.
    Init {
        modvar: Name,
        body: Name,
        args: Option<Args>,
        span: Span,
    },
    /// `release NAME`: a module variable.
    Release {
        modvar: Name,
        span: Span,
    },
    /// `connect Ip to Ip`
    Connect {
        first: Ip,
        second: Ip,
        span: Span,
    },
    /// `disconnect Ip`
    Disconnect {
        ip: Ip,
        span: Span,
    },
    /// `attach NAME to NAME "." NAME`: an external ip to that of the child in a module variable.
    Attach {
        own: Name,
        modvar: Name,
        ip: Name,
        span: Span,
    },
    /// `detach NAME`: an external ip.
    Detach {
        own: Name,
        span: Span,
    },
    /// `output NAME "." NAME ["(" Args ")"]`: an ip and an interaction.
    Output {
        ip: Name,
        interaction: Name,
        args: Option<Args>,
        span: Span,
    },
}

impl Drop for Stmt {
    #[cycle(drop_statements)]
    fn drop(self) {
        match self {
            Stmt::Empty => {}
            Stmt::Assign {
                variable: _,
                value: _,
                span: _,
            } => {}
            Stmt::Call {
                name: _,
                args: _,
                span: _,
            } => {}
            Stmt::Begin { stmts: _, span: _ } => {}
            Stmt::If {
                condition: _,
                then_part: _,
                else_part: _,
                span: _,
            } => {}
            Stmt::While {
                condition: _,
                body: _,
                span: _,
            } => {}
            Stmt::Repeat {
                stmts: _,
                condition: _,
                span: _,
            } => {}
            Stmt::Count {
                variable: _,
                first: _,
                direction: _,
                last: _,
                body: _,
                span: _,
            } => {}
            Stmt::Case {
                selector: _,
                cases: _,
                semicolon: _,
                span: _,
            } => {}
            Stmt::Init {
                modvar: _,
                body: _,
                args: _,
                span: _,
            } => {}
            Stmt::Release { modvar: _, span: _ } => {}
            Stmt::Connect {
                first: _,
                second: _,
                span: _,
            } => {}
            Stmt::Disconnect { ip: _, span: _ } => {}
            Stmt::Attach {
                own: _,
                modvar: _,
                ip: _,
                span: _,
            } => {}
            Stmt::Detach { own: _, span: _ } => {}
            Stmt::Output {
                ip: _,
                interaction: _,
                args: _,
                span: _,
            } => {}
        }
    }
}

/// Which way a `for` counts (ISO 7185, 6.8.3.9).
///
/// `to | downto`
#[derive(Clone, Copy, Debug, PartialEq, Eq)]
pub enum Direction {
    To,
    Downto,
}

/// A case list element (ISO 7185, 6.8.3.5).
///
/// `Case = Const {"," Const} ":" Stmt`
#[cycle(statements)]
pub struct Case {
    pub labels: Items<Const>,
    pub body: Stmt,
    pub span: Span,
}

impl Drop for Case {
    #[cycle(drop_statements)]
    fn drop(self) {
        let Case {
            labels: _,
            body: _,
            span: _,
        } = self;
    }
}

/// An interaction point, of the instance itself or of a child; for `disconnect` also a child alone
/// (ISO/IEC 9074).
///
/// `Ip = NAME ["." NAME]`
pub struct Ip {
    /// An ip, or where there is a second name, a module variable.
    pub name: Name,
    pub part: Option<Name>,
    pub span: Span,
}

impl Drop for Ip {
    fn drop(self) {
        let Ip {
            name: _,
            part: _,
            span: _,
        } = self;
    }
}
