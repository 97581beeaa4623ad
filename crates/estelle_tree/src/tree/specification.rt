use crate::tree::{Block, ConstDef, Name, NameList, Routine, TransBody, TypeDef, TypedNames};
use crate::{Items, Span};

/// A specification (ISO/IEC 9074).
///
/// `Spec = specification NAME [SysAttr] ";" {Head} Parts end "."`
pub struct Spec {
    pub name: Name,
    pub attr: Option<SysAttr>,
    pub heads: Items<Head>,
    pub parts: Parts,
    pub span: Span,
}

impl Drop for Spec {
    fn drop(self) {
        let Spec {
            name: _,
            attr: _,
            heads: _,
            parts: _,
            span: _,
        } = self;
    }
}

/// The attribute of a system module (ISO/IEC 9074).
///
/// `SysAttr = systemprocess | systemactivity`
#[derive(Clone, Copy, Debug, PartialEq, Eq)]
pub enum SysAttr {
    Systemprocess { span: Span },
    Systemactivity { span: Span },
}

/// The attribute of a module (ISO/IEC 9074).
///
/// `Attr = SysAttr | process | activity`
#[derive(Clone, Copy, Debug, PartialEq, Eq)]
pub enum Attr {
    /// `SysAttr`, with its span.
    SysAttr(SysAttr),
    Process { span: Span },
    Activity { span: Span },
}

/// What a specification sets for all of its modules (ISO/IEC 9074).
///
/// `Head = default Disc queue ";" | timescale NAME ";"`
pub enum Head {
    /// `default Disc queue ";"`: the queue of ips that name none.
    Default { disc: Disc, span: Span },
    /// `timescale NAME ";"`: the unit of time, which has no meaning here.
    Timescale { unit: Name, span: Span },
}

impl Drop for Head {
    fn drop(self) {
        match self {
            Head::Default { disc: _, span: _ } => {}
            Head::Timescale { unit: _, span: _ } => {}
        }
    }
}

/// The queue discipline of an ip (ISO/IEC 9074).
///
/// `Disc = individual | common`
#[derive(Clone, Copy, Debug, PartialEq, Eq)]
pub enum Disc {
    Individual { span: Span },
    Common { span: Span },
}

/// What a specification and a body consist of (ISO/IEC 9074).
///
/// `Parts = {Decl} [Init] {trans TransBody}`
#[cycle(bodies)]
pub struct Parts {
    pub decls: Items<Decl>,
    pub init: Option<Init>,
    pub trans: Items<Trans>,
    /// 0..0 where there is none of these.
    pub span: Span,
}

impl Drop for Parts {
    #[cycle(drop_declarations)]
    fn drop(self) {
        let Parts {
            decls: _,
            init: _,
            trans: _,
            span: _,
        } = self;
    }
}

/// Transitions under one word `trans` (ISO/IEC 9074).
///
/// `trans TransBody`
pub struct Trans {
    pub body: TransBody,
    /// From the word `trans` on.
    pub span: Span,
}

impl Drop for Trans {
    fn drop(self) {
        let Trans { body: _, span: _ } = self;
    }
}

/// The initialization part (ISO/IEC 9074).
///
/// `Init = initialize [to NAME] Block`
pub struct Init {
    pub to: Option<Name>,
    pub block: Block,
    pub span: Span,
}

impl Drop for Init {
    fn drop(self) {
        let Init {
            to: _,
            block: _,
            span: _,
        } = self;
    }
}

/// A declaration of a specification or body (ISO/IEC 9074; constants, types, variables and routines
/// as in ISO 7185, 6.2.1).
///
/// `Decl = const {NAME "=" Const ";"}+ | type {NAME "=" Type ";"}+ | Channel | Header | Body
///       | ip {IpDecl ";"}+ | modvar {Names ":" NAME ";"}+ | var {Names ":" Type ";"}+
///       | state Names ";" | stateset {NAME "=" "[" Names "]" ";"}+ | Routine`
#[cycle(bodies)]
pub enum Decl {
    Const {
        defs: Items<ConstDef>,
        span: Span,
    },
    Types {
        defs: Items<TypeDef>,
        span: Span,
    },
    Channel(Channel),
    Header(Header),
    Body(Body),
    Ip {
        ips: Items<IpDecl>,
        span: Span,
    },
    Modvar {
        modvars: Items<ModvarDecl>,
        span: Span,
    },
    Var {
        vars: Items<TypedNames>,
        span: Span,
    },
    State {
        states: NameList,
        span: Span,
    },
    Stateset {
        sets: Items<StatesetDef>,
        span: Span,
    },
    Routine(Routine),
}

impl Drop for Decl {
    #[cycle(drop_declarations)]
    fn drop(self) {
        match self {
            Decl::Const { defs: _, span: _ } => {}
            Decl::Types { defs: _, span: _ } => {}
            Decl::Channel(_) => {}
            Decl::Header(_) => {}
            Decl::Body(_) => {}
            Decl::Ip { ips: _, span: _ } => {}
            Decl::Modvar {
                modvars: _,
                span: _,
            } => {}
            Decl::Var { vars: _, span: _ } => {}
            Decl::State { states: _, span: _ } => {}
            Decl::Stateset { sets: _, span: _ } => {}
            Decl::Routine(_) => {}
        }
    }
}

/// A channel with its two roles (ISO/IEC 9074).
///
/// `Channel = channel NAME "(" NAME "," NAME ")" ";" {by Names ":" {Inter ";"}+}+`
pub struct Channel {
    pub name: Name,
    pub first_role: Name,
    pub second_role: Name,
    pub groups: Items<InterGroup>,
    pub span: Span,
}

impl Drop for Channel {
    fn drop(self) {
        let Channel {
            name: _,
            first_role: _,
            second_role: _,
            groups: _,
            span: _,
        } = self;
    }
}

/// The interactions that some roles may send (ISO/IEC 9074).
///
/// `by Names ":" {Inter ";"}+`
pub struct InterGroup {
    pub roles: NameList,
    pub inters: Items<Inter>,
}

impl Drop for InterGroup {
    fn drop(self) {
        let InterGroup {
            roles: _,
            inters: _,
        } = self;
    }
}

/// An interaction (ISO/IEC 9074).
///
/// `Inter = NAME ["(" Params ")"]`
pub struct Inter {
    pub name: Name,
    pub params: Option<Params>,
    pub span: Span,
}

impl Drop for Inter {
    fn drop(self) {
        let Inter {
            name: _,
            params: _,
            span: _,
        } = self;
    }
}

/// The value parameters of an interaction or a module, without their parentheses (ISO/IEC 9074).
///
/// `Params = Names ":" NAME {";" Names ":" NAME}`
pub struct Params {
    pub groups: Items<ParamGroup>,
    pub span: Span,
}

impl Drop for Params {
    fn drop(self) {
        let Params { groups: _, span: _ } = self;
    }
}

/// Parameters of one type.
///
/// `Names ":" NAME`
pub struct ParamGroup {
    pub names: NameList,
    pub type_name: Name,
}

impl Drop for ParamGroup {
    fn drop(self) {
        let ParamGroup {
            names: _,
            type_name: _,
        } = self;
    }
}

/// A module header (ISO/IEC 9074).
///
/// `Header = module NAME [Attr] ["(" Params ")"] ";" [ip {IpDecl ";"}+] [export {Names ":" Type ";"}+]
///           end ";"`
pub struct Header {
    pub name: Name,
    pub attr: Option<Attr>,
    pub params: Option<Params>,
    /// None where there is no word `ip`.
    pub ips: Items<IpDecl>,
    /// None where there is no word `export`.
    pub exports: Items<TypedNames>,
    pub span: Span,
}

impl Drop for Header {
    fn drop(self) {
        let Header {
            name: _,
            attr: _,
            params: _,
            ips: _,
            exports: _,
            span: _,
        } = self;
    }
}

/// Interaction points of one kind (ISO/IEC 9074).
///
/// `IpDecl = Names ":" NAME "(" NAME ")" [Disc queue]`
pub struct IpDecl {
    pub names: NameList,
    pub channel: Name,
    pub role: Name,
    /// The specification's default where this is none.
    pub disc: Option<Disc>,
    pub span: Span,
}

impl Drop for IpDecl {
    fn drop(self) {
        let IpDecl {
            names: _,
            channel: _,
            role: _,
            disc: _,
            span: _,
        } = self;
    }
}

/// Module variables of one header (ISO/IEC 9074).
///
/// `Names ":" NAME ";"`
pub struct ModvarDecl {
    pub names: NameList,
    pub header: Name,
}

impl Drop for ModvarDecl {
    fn drop(self) {
        let ModvarDecl {
            names: _,
            header: _,
        } = self;
    }
}

/// A state set (ISO/IEC 9074).
///
/// `NAME "=" "[" Names "]" ";"`
pub struct StatesetDef {
    pub name: Name,
    pub states: NameList,
}

impl Drop for StatesetDef {
    fn drop(self) {
        let StatesetDef { name: _, states: _ } = self;
    }
}

/// A module body (ISO/IEC 9074).
///
/// `Body = body NAME for NAME ";" Parts end ";"`
#[cycle(bodies)]
pub struct Body {
    pub name: Name,
    pub header: Name,
    pub parts: Parts,
    pub span: Span,
}

impl Drop for Body {
    #[cycle(drop_declarations)]
    fn drop(self) {
        let Body {
            name: _,
            header: _,
            parts: _,
            span: _,
        } = self;
    }
}
