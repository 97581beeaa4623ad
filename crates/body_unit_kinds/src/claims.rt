//! What is claimed of units before their stacks are found.

ghost use Rattle.std.specs.Prelude.{◌≡◌};
ghost use Rattle.std.specs.Map.{lookup};
ghost use Rattle.std.specs.Option.{option_copied};
ghost use Rattle.body_code.specs.Units.{same_place};

use crate::kind::Kind;
use body_code::Entry;
use estelle_tree::Items;
use indexmap::IndexMap;

/// Of a unit: whether it and all that it calls need no instance of its body, and what it leaves, the topmost first.
pub struct Claim<'a> {
    pub closed: bool,
    pub result: Items<Kind<'a>>,
}

impl Drop for Claim<'_> {
    fn drop(self) {
        let Claim {
            closed: _,
            result: _,
        } = self;
    }
}

/// Of each unit by its body and its entry.
pub struct Claims<'a> {
    pub units: IndexMap<(u32, Entry), Claim<'a>>,
}

impl Drop for Claims<'_> {
    fn drop(self) {
        let Claims { units: _ } = self;
    }
}

impl<'a> Claims<'a> {
    pub fn get(&self, body: u32, entry: Entry) -> Option<&Claim<'a>>
        ensures { option_copied result ≡ lookup (same_place (body, entry)) self.now.units.entries }
    {
        self.units.get(&(body, entry))
    }
}
