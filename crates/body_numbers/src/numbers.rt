//! What the numbers in instructions stand for.

ghost use Rattle.std.specs.Prelude.{◌≡◌};
ghost use Rattle.std.specs.Option.{option_copied};
ghost use Rattle.body_numbers.specs.Numbers.{shape_numbered, export_numbered, word_of, interaction_of};

use estelle_model::InteractionKind;
use estelle_tree::{Items, Sequence, Word};
use pascal_values::Shape;

/// What numbers of a specification stand for.
pub struct Numbers {
    /// The shapes of the required types, then those of the type expressions in text order.
    pub shapes: Items<Shape>,
    /// The interactions of each channel.
    pub channels: Items<Items<InteractionKind>>,
    /// For each header the variables of an instance that its exports are.
    pub headers: Items<Items<u32>>,
    pub bodies: Items<BodyNumbers>,
}

impl Drop for Numbers {
    fn drop(self) {
        let Numbers {
            shapes: _,
            channels: _,
            headers: _,
            bodies: _,
        } = self;
    }
}

impl Numbers {
    /// The shape with a number.
    pub fn shape(&self, number: u32) -> Option<&Shape>
        ensures { option_copied result ≡ shape_numbered self.now number }
    {
        self.shapes.get(number as usize)
    }

    /// The variable of the child in a module variable of a body that an export of its header is.
    pub fn export(&self, body: u32, modvar: u32, export: u32) -> Option<u32>
        ensures { result ≡ export_numbered self.now body modvar export }
    {
        let body = self.bodies.get(body as usize)?;
        let header = body.module_variables.get(modvar as usize)?;
        let exports = self.headers.get(*header as usize)?;
        let variable = exports.get(export as usize)?;
        Some(*variable)
    }

    /// The word of an interaction point of a body.
    pub fn word(&self, body: u32, ip: u32) -> Option<&Word>
        ensures { option_copied result ≡ word_of self.now body ip }
    {
        let body = self.bodies.get(body as usize)?;
        let ip = body.ips.get(ip as usize)?;
        Some(&ip.word)
    }

    /// An interaction of the channel of an interaction point of a body.
    pub fn interaction(&self, body: u32, ip: u32, interaction: u32) -> Option<&InteractionKind>
        ensures { option_copied result ≡ interaction_of self.now body ip interaction }
    {
        let body = self.bodies.get(body as usize)?;
        let ip = body.ips.get(ip as usize)?;
        let kinds = self.channels.get(ip.channel as usize)?;
        kinds.get(interaction as usize)
    }
}

/// What numbers of a body stand for.
pub struct BodyNumbers {
    /// The header of each module variable, by its number among them all.
    pub module_variables: Items<u32>,
    pub ips: Items<IpNumbers>,
}

impl Drop for BodyNumbers {
    fn drop(self) {
        let BodyNumbers {
            module_variables: _,
            ips: _,
        } = self;
    }
}

/// An interaction point: its name in the declaration, and its channel by its number.
pub struct IpNumbers {
    pub word: Word,
    pub channel: u32,
}

impl Drop for IpNumbers {
    fn drop(self) {
        let IpNumbers {
            word: _,
            channel: _,
        } = self;
    }
}
