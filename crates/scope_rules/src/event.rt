//! What a tree says of names, one thing at a time.

use crate::declaration::{Denotes, Inside, Need};
use estelle_tree::{Items, Name, Span};

/// How a scope stands to the one around it.
#[derive(Clone, Copy, Debug, PartialEq, Eq)]
pub enum ScopeForm {
    /// A scope of its own.
    Inner,
    /// A further part of the scope around it: a name may not be declared in both.
    Further,
    /// The scope of a specification or a body.
    Body,
}

/// What stands behind a name in use.
#[derive(Drop)]
pub enum Step {
    /// An index.
    Index,
    /// A name behind a dot.
    Member { name: Name, need: Need },
    /// A role behind a channel. That it is one of the channel's is no rule on names.
    Role(Name),
}

/// One thing that a tree says of names.
pub enum Event {
    /// A scope opens.
    Open(ScopeForm),
    /// The innermost scope closes.
    Close,
    /// The innermost scope closes, and its names are kept for what stands there.
    Keep(Span),
    /// The inside of this header belongs to the innermost scope.
    Import(Name),
    /// The parameters of this interaction of this ip belong to the innermost scope. A list of them may stand
    /// behind the interaction.
    Receive {
        ip: Name,
        interaction: Name,
        listed: Option<Items<Name>>,
    },
    /// An array type, and what its components bring behind a dot.
    Array {
        at: Span,
        components: Inside,
    },
    /// These names are declared in the innermost scope.
    Declare {
        names: Items<Name>,
        denotes: Denotes,
        inside: Inside,
    },
    /// A name is used, with what stands behind it. What the name of a type, a channel or a header brings is noted where
    /// it stands.
    Use {
        name: Name,
        need: Need,
        steps: Items<Step>,
    },
    /// A role behind `by`. That it is one of the channel's is no rule on names.
    By(Name),
    /// An `init` of this module variable with this body.
    Init {
        modvar: Name,
        body: Name,
    },
    /// A specification or body that stands there: whether it declares states, whether its `initialize` has `to`,
    /// and whether a transition has `from` or `to` with a state.
    States {
        at: Span,
        declared: bool,
        initial: bool,
        transitions: bool,
    },
}

impl Drop for Event {
    fn drop(self) {
        match self {
            Event::Open(_) => {}
            Event::Close => {}
            Event::Keep(_) => {}
            Event::Import(_) => {}
            Event::Receive {
                ip: _,
                interaction: _,
                listed: _,
            } => {}
            Event::Array {
                at: _,
                components: _,
            } => {}
            Event::Declare {
                names: _,
                denotes: _,
                inside: _,
            } => {}
            Event::Use {
                name: _,
                need: _,
                steps: _,
            } => {}
            Event::By(_) => {}
            Event::Init { modvar: _, body: _ } => {}
            Event::States {
                at: _,
                declared: _,
                initial: _,
                transitions: _,
            } => {}
        }
    }
}
