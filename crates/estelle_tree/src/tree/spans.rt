//! The span of a node whose production has alternatives. Other nodes have a field `span`.

ghost use Rattle.std.specs.Prelude.{◌≡◌};
ghost use Rattle.estelle_tree.specs.Spans as spans;

use crate::Span;
use crate::tree::{
    Attr, BlockDecl, Clause, Const, Decl, Disc, Factor, Head, Ordinal, Stmt, SysAttr, TransBody,
    TypeExpr,
};

impl Const {
    pub fn span(&self) -> Span
        ensures { result ≡ spans.of_const self.now }
    {
        match self {
            Const::Number { span, .. } | Const::Name { span, .. } | Const::Char { span, .. } =>
                *span,
        }
    }
}

impl Ordinal {
    pub fn span(&self) -> Span
        ensures { result ≡ spans.of_ordinal self.now }
    {
        match self {
            Ordinal::Name(name) => name.span,
            Ordinal::Enumeration { span, .. } | Ordinal::Subrange { span, .. } => *span,
        }
    }
}

impl TypeExpr {
    pub fn span(&self) -> Span
        ensures { result ≡ spans.of_type self.now }
    {
        match self {
            TypeExpr::Ordinal(ordinal) => ordinal.span(),
            TypeExpr::Array { span, .. }
            | TypeExpr::Fields { span, .. }
            | TypeExpr::Set { span, .. } => *span,
        }
    }
}

impl Factor {
    pub fn span(&self) -> Span
        ensures { result ≡ spans.of_factor self.now }
    {
        match self {
            Factor::Variable(variable) => variable.span,
            Factor::Number { span, .. }
            | Factor::Char { span, .. }
            | Factor::Call { span, .. }
            | Factor::Paren { span, .. }
            | Factor::Not { span, .. }
            | Factor::Set { span, .. } => *span,
        }
    }
}

impl Stmt {
    pub fn span(&self) -> Span
        ensures { result ≡ spans.of_stmt self.now }
    {
        match self {
            Stmt::Empty => Span { start: 0, end: 0 },
            Stmt::Assign { span, .. }
            | Stmt::Call { span, .. }
            | Stmt::Begin { span, .. }
            | Stmt::If { span, .. }
            | Stmt::While { span, .. }
            | Stmt::Repeat { span, .. }
            | Stmt::Count { span, .. }
            | Stmt::Case { span, .. }
            | Stmt::Init { span, .. }
            | Stmt::Release { span, .. }
            | Stmt::Connect { span, .. }
            | Stmt::Disconnect { span, .. }
            | Stmt::Attach { span, .. }
            | Stmt::Detach { span, .. }
            | Stmt::Output { span, .. } => *span,
        }
    }
}

impl BlockDecl {
    pub fn span(&self) -> Span
        ensures { result ≡ spans.of_block_decl self.now }
    {
        match self {
            BlockDecl::Const { span, .. }
            | BlockDecl::Types { span, .. }
            | BlockDecl::Var { span, .. } => *span,
        }
    }
}

impl Clause {
    pub fn span(&self) -> Span
        ensures { result ≡ spans.of_clause self.now }
    {
        match self {
            Clause::From { span, .. }
            | Clause::To { span, .. }
            | Clause::When { span, .. }
            | Clause::Provided { span, .. }
            | Clause::Priority { span, .. }
            | Clause::Any { span, .. }
            | Clause::Delay { span, .. } => *span,
        }
    }
}

impl TransBody {
    pub fn span(&self) -> Span
        ensures { result ≡ spans.of_trans_body self.now }
    {
        match self {
            TransBody::Block(block) => block.span,
            TransBody::Groups { span, .. } => *span,
        }
    }
}

impl SysAttr {
    pub fn span(&self) -> Span
        ensures { result ≡ spans.of_sys_attr self.now }
    {
        match self {
            SysAttr::Systemprocess { span } | SysAttr::Systemactivity { span } => *span,
        }
    }
}

impl Attr {
    pub fn span(&self) -> Span
        ensures { result ≡ spans.of_attr self.now }
    {
        match self {
            Attr::SysAttr(sys) => sys.span(),
            Attr::Process { span } | Attr::Activity { span } => *span,
        }
    }
}

impl Disc {
    pub fn span(&self) -> Span
        ensures { result ≡ spans.of_disc self.now }
    {
        match self {
            Disc::Individual { span } | Disc::Common { span } => *span,
        }
    }
}

impl Head {
    pub fn span(&self) -> Span
        ensures { result ≡ spans.of_head self.now }
    {
        match self {
            Head::Default { span, .. } | Head::Timescale { span, .. } => *span,
        }
    }
}

impl Decl {
    pub fn span(&self) -> Span
        ensures { result ≡ spans.of_decl self.now }
    {
        match self {
            Decl::Channel(channel) => channel.span,
            Decl::Header(header) => header.span,
            Decl::Body(body) => body.span,
            Decl::Routine(routine) => routine.span,
            Decl::Const { span, .. }
            | Decl::Types { span, .. }
            | Decl::Ip { span, .. }
            | Decl::Modvar { span, .. }
            | Decl::Var { span, .. }
            | Decl::State { span, .. }
            | Decl::Stateset { span, .. } => *span,
        }
    }
}
