//! What is declared where a name stands.

use estelle_tree::{Attr, Items, Word};

/// A role of a channel, by the place of its name, and whether it may send an interaction (ISO/IEC 9074: `by`).
#[derive(Clone, Copy)]
pub struct Sender {
    pub role: u32,
    pub may_send: bool,
}

/// An interaction point (ISO/IEC 9074). Its channel and its role are known by the places of their names; 0 for a role that
/// is none of the channel's two.
#[derive(Clone, Copy)]
pub struct InteractionPoint {
    pub channel: u32,
    pub role: u32,
    /// Whether a header declares it, and not a body.
    pub external: bool,
}

/// An interaction of a channel (ISO/IEC 9074), with the channel's two roles.
pub struct Interaction {
    pub first: Sender,
    pub second: Sender,
    /// The names of its parameters.
    pub parameters: Items<Word>,
}

impl Drop for Interaction {
    fn drop(self) {
        let Interaction {
            first: _,
            second: _,
            parameters: _,
        } = self;
    }
}

/// What is declared where a name stands.
pub enum Declared {
    /// A module header, with its attribute.
    Header(Option<Attr>),
    Ip(InteractionPoint),
    Interaction(Interaction),
}

impl Drop for Declared {
    fn drop(self) {
        match self {
            Declared::Header(_) => {}
            Declared::Ip(_) => {}
            Declared::Interaction(_) => {}
        }
    }
}
