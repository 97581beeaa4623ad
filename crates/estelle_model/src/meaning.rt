use crate::denoter::Host;
use crate::shared::{Statements, Type};
use estelle_tree::{Items, Required, Word};
use pascal_values::Value;

/// How a parameter is passed (ISO 7185, 6.6.3).
pub enum Passing {
    ByValue(Type),
    ByPlace,
}

impl Drop for Passing {
    fn drop(self) {
        match self {
            Passing::ByValue(_) => {}
            Passing::ByPlace => {}
        }
    }
}

/// A procedure or a function, or a block that is entered as one (ISO 7185, 6.6).
pub struct Routine<'a> {
    pub parameters: Items<Passing>,
    /// The types of its own variables.
    pub locals: Items<Type>,
    /// The type of a function's result.
    pub result: Option<Type>,
    pub body: Statements<'a>,
}

impl Drop for Routine<'_> {
    fn drop(self) {
        let Routine {
            parameters: _,
            locals: _,
            result: _,
            body: _,
        } = self;
    }
}

/// The attribute of a module (ISO/IEC 9074).
#[derive(Clone, Copy, Debug, PartialEq, Eq)]
pub enum Attribute {
    Systemprocess,
    Systemactivity,
    Process,
    Activity,
}

/// The two roles of a channel, in the order in which it names them (ISO/IEC 9074).
#[derive(Clone, Copy, Debug, PartialEq, Eq)]
pub enum Role {
    First,
    Second,
}

/// An interaction point as it is declared (ISO/IEC 9074). A channel is known by the place where its name is
/// declared.
#[derive(Clone, Copy, Debug, PartialEq, Eq)]
pub struct InteractionPoint {
    pub channel: u32,
    pub role: Role,
    /// Whether it shares the common queue of its instance.
    pub common: bool,
    /// Whether a header declares it, and not a body.
    pub external: bool,
}

/// Which roles may send an interaction (ISO/IEC 9074: `by`).
#[derive(Clone, Copy, Debug, PartialEq, Eq)]
pub struct Senders {
    pub first: bool,
    pub second: bool,
}

/// An interaction as its channel declares it (ISO/IEC 9074).
pub struct InteractionKind {
    pub channel: u32,
    /// Its name in the declaration.
    pub word: Word,
    pub senders: Senders,
    /// The types of its parameters.
    pub parameters: Items<Type>,
}

impl Drop for InteractionKind {
    fn drop(self) {
        let InteractionKind {
            channel: _,
            word: _,
            senders: _,
            parameters: _,
        } = self;
    }
}

/// A module header (ISO/IEC 9074).
pub struct Heading {
    /// The place where its name is declared.
    pub at: u32,
    pub attribute: Option<Attribute>,
    pub parameters: Items<Type>,
    pub exports: Items<Type>,
    pub ips: Items<InteractionPoint>,
}

impl Drop for Heading {
    fn drop(self) {
        let Heading {
            at: _,
            attribute: _,
            parameters: _,
            exports: _,
            ips: _,
        } = self;
    }
}

/// What a name can mean.
pub enum Meaning<'a> {
    /// A constant, a value of an enumerated type, or a name of an `any` clause.
    Constant { value: Value, host: Host },
    TypeName(Type),
    /// A variable of the instance, by its number.
    Own { number: u32, denoter: Type },
    /// An exported variable, by its number among the instance's variables: the instance's own where the
    /// name stands alone, and a child's behind a module variable.
    Exported { number: u32, denoter: Type },
    /// A variable of the block or routine itself, a value parameter, or a parameter of the interaction,
    /// by its number in the frame.
    Local { number: u32, denoter: Type },
    /// A var parameter, by its number among these.
    Var { number: u32, denoter: Type },
    /// A field of a record, by its number.
    Field(u32),
    Called(Routine<'a>),
    RequiredFunction(Required),
    /// A module variable of the instance, by its number.
    Module(u32),
    /// An interaction point of the instance, by its number.
    Ip(u32),
    /// A state of the instance, by its number.
    State(u32),
    StateSet(Items<u32>),
    /// A channel, by the place where it is declared.
    Channel(u32),
    Role(Role),
    Interaction(InteractionKind),
    Header(Heading),
    /// A body, by its number in the specification.
    Body(u32),
    /// A name of another kind.
    Other,
}

impl Drop for Meaning<'_> {
    fn drop(self) {
        match self {
            Meaning::Constant { value: _, host: _ } => {}
            Meaning::TypeName(_) => {}
            Meaning::Own {
                number: _,
                denoter: _,
            } => {}
            Meaning::Exported {
                number: _,
                denoter: _,
            } => {}
            Meaning::Local {
                number: _,
                denoter: _,
            } => {}
            Meaning::Var {
                number: _,
                denoter: _,
            } => {}
            Meaning::Field(_) => {}
            Meaning::Called(_) => {}
            Meaning::RequiredFunction(_) => {}
            Meaning::Module(_) => {}
            Meaning::Ip(_) => {}
            Meaning::State(_) => {}
            Meaning::StateSet(_) => {}
            Meaning::Channel(_) => {}
            Meaning::Role(_) => {}
            Meaning::Interaction(_) => {}
            Meaning::Header(_) => {}
            Meaning::Body(_) => {}
            Meaning::Other => {}
        }
    }
}
