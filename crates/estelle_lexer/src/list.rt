ghost use Rattle.std.specs.Prelude.{◌≡◌};

use estelle_tree::{Items, Placed};

/// The tokens of a text in order, and the place after the `.` that follows `end`, or the text's length.
#[derive(Debug)]
pub struct Tokens {
    pub items: Items<Placed>,
    pub rest: u32,
}

impl Drop for Tokens {
    fn drop(self) {
        let Tokens { items: _, rest: _ } = self;
    }
}

impl Tokens {
    pub fn items(&self) -> &[Placed]
        ensures { result.now ≡ self.now.items }
    {
        self.items.as_slice()
    }
}
