//! Which instances are systems.

ghost use Rattle.std.specs.Prelude.{◌≡◌};
ghost use Rattle.estelle_model.specs.Situation.{Situation};
ghost use Rattle.estelle_model.specs.Attributes.{attribute_at, is_system as is_of_system};
ghost use Rattle.estelle_model_legality.specs.Situations.{IsLegal};
ghost use Rattle.effect_log.specs.Standing.{Stands};
ghost use Rattle.situation_state.specs.Systems as spec;

use crate::state::State;
use body_program::Program;
use estelle_model::Attribute;
use estelle_tree::Path;

/// Whether an instance of a body is a system.
pub fn is_system_body(program: &Program, body: u32) -> bool
    ensures { result ≡ spec.is_system_body program.now body }
{
    match program.attribute(body) {
        Some(Attribute::Systemprocess) => true,
        Some(Attribute::Systemactivity) => true,
        _ => false,
    }
}

impl State<'_> {
    /// Whether an instance is there and is a system.
    pub fn is_system(&self, path: &Path) -> bool
        ensures { (g : Situation) → Stands self.now.program.now self.now.shared g → IsLegal self.now.program.now g → result ≡ is_of_system (attribute_at self.now.program.now g path.now) }
    {
        match self.shared.tree.get(path) {
            None => false,
            Some(part) => is_system_body(self.program, part.body),
        }
    }
}
