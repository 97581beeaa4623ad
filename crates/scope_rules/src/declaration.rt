//! What a name is declared as, and what the place of a name in use needs.

ghost use Rattle.std.specs.Prelude.{◌≡◌};
ghost use Rattle.scope_rules.specs.Kinds as kinds;

use estelle_tree::Span;

/// What a name denotes.
#[derive(Clone, Copy, Debug, PartialEq, Eq)]
pub enum Denotes {
    /// A constant, a value of an enumerated type, or a name of `any`.
    Constant,
    Type,
    /// A variable, or a parameter of a header, a routine or an interaction.
    Variable,
    /// An exported variable of a header.
    Exported,
    Field,
    Procedure,
    Function,
    /// A required function, which has no body in which its result could be assigned.
    RequiredFunction,
    Channel,
    Role,
    Interaction,
    Header,
    Body,
    ModuleVariable,
    Ip,
    State,
    StateSet,
}

/// What the place of a name in use needs.
#[derive(Clone, Copy, Debug, PartialEq, Eq)]
pub enum Need {
    Constant,
    Type,
    /// The variable of a `for`, or a variable before an index.
    Variable,
    /// What stands before a dot in an expression or on the left side of an assignment: a variable or a module
    /// variable.
    Selected,
    /// What stands behind that dot: a field or an exported variable.
    Component,
    /// A name alone in an expression.
    Value,
    /// A name alone on the left side of an assignment.
    Assigned,
    Procedure,
    Function,
    Channel,
    Role,
    Interaction,
    Header,
    Body,
    ModuleVariable,
    Ip,
    /// A name alone behind `disconnect`: an ip or a module variable.
    Disconnected,
    State,
    /// A name behind `from`: a state or a state set.
    Origin,
}

/// Where the names are that a declaration brings behind a dot.
#[derive(Clone, Copy, Debug, PartialEq, Eq)]
pub enum Inside {
    /// It brings none.
    Nothing,
    /// They are kept for the type or the name that stands there.
    At(Span),
    /// They are those that were noted where this name of a type, a channel or a header stands.
    Brought(Span),
}

/// What stands behind a dot.
#[derive(Clone, Copy, Debug, PartialEq, Eq)]
pub enum Members {
    /// No names.
    Nothing,
    /// The names that are kept for this place.
    KeptAt(u32),
    /// Those of a type, a header or a channel that is at fault: they are not judged.
    AtFault,
}

/// A name as it is declared.
#[derive(Clone, Copy, Debug, PartialEq, Eq)]
pub struct Declared {
    /// The name in its declaration; 0..0 for a required identifier.
    pub at: Span,
    pub denotes: Denotes,
    /// What stands behind its dot.
    pub inside: Members,
}

/// Whether a name that denotes this may stand where that is needed.
pub fn may_be(need: Need, denotes: Denotes) -> bool
    ensures { result ≡ kinds.may_be need denotes }
{
    match (need, denotes) {
        (Need::Constant, Denotes::Constant) => true,
        (Need::Type, Denotes::Type) => true,
        (Need::Variable, Denotes::Variable | Denotes::Exported) => true,
        (Need::Selected, Denotes::Variable | Denotes::Exported | Denotes::ModuleVariable) => true,
        (Need::Component, Denotes::Field | Denotes::Exported) => true,
        (
            Need::Value,
            Denotes::Constant
            | Denotes::Variable
            | Denotes::Exported
            | Denotes::Function
            | Denotes::RequiredFunction,
        ) => true,
        (Need::Assigned, Denotes::Variable | Denotes::Exported | Denotes::Function) => true,
        (Need::Procedure, Denotes::Procedure) => true,
        (Need::Function, Denotes::Function | Denotes::RequiredFunction) => true,
        (Need::Channel, Denotes::Channel) => true,
        (Need::Role, Denotes::Role) => true,
        (Need::Interaction, Denotes::Interaction) => true,
        (Need::Header, Denotes::Header) => true,
        (Need::Body, Denotes::Body) => true,
        (Need::ModuleVariable, Denotes::ModuleVariable) => true,
        (Need::Ip, Denotes::Ip) => true,
        (Need::Disconnected, Denotes::Ip | Denotes::ModuleVariable) => true,
        (Need::State, Denotes::State) => true,
        (Need::Origin, Denotes::State | Denotes::StateSet) => true,
        _ => false,
    }
}
