//! A view of an image whose instances stay where they are.

ghost use Rattle.std.specs.Prelude.{◌≡◌, option_map};
ghost use Rattle.std.specs.Option.{option_copied};
ghost use Rattle.estelle_model.specs.Jobs.{instance_of};
ghost use Rattle.body_state.specs.InOrder.{parts_behind, are_in_order, InOrder, instance_in};

use crate::parts::{are_in_order, lent_at};
use estelle_model::Part;
use estelle_tree::{Link, Path};
use std::marker::Model;

/// An image that is read where its parts and its links are. Nothing of it is copied.
#[derive(Drop)]
pub struct View<'a> {
    parts: &'a [&'a Part],
    links: &'a [Link],
}

impl<'a> Model for View<'a> {
    ghost use Rattle.estelle_model.specs.declared.image.Image.{Image};
    ghost use Rattle.std.specs.Coded.{codes};
    ghost use Rattle.pascal_values.specs.contracts.value.Value as of_value;

    ghost Value = { Image };

    ghost coded = { Prim.hlevel (codes, of_value.the_row.coded) };

    ghost use Rattle.body_state.specs.Seen.{image_seen};

    ghost view = { image_seen };
}

impl<'a> View<'a> {
    /// The image of these parts and links. It takes no memory.
    pub fn of(parts: &'a [&'a Part], links: &'a [Link]) -> View<'a>
        ensures { result ≡ record { parts = parts_behind parts.now; links = links.now } }
    {
        View { parts, links }
    }

    /// Whether the parts stand in path order, each path once. It takes the time of all parts.
    pub fn is_in_order(&self) -> bool
        ensures { result ≡ are_in_order self.now.parts }
    {
        are_in_order(self.parts)
    }

    /// The part with a path. It takes the time to halve the parts until it is found.
    pub fn part(&self, path: &Path) -> Option<&'a Part>
        requires { InOrder self.now.parts }
        ensures { option_map instance_of (option_copied result) ≡ instance_in self.now.parts path.now }
    {
        lent_at(self.parts, path)
    }

    pub(crate) fn parts(&self) -> &'a [&'a Part]
        ensures { parts_behind result.now ≡ self.now.parts }
    {
        self.parts
    }

    pub(crate) fn links(&self) -> &'a [Link]
        ensures { result.now ≡ self.now.links }
    {
        self.links
    }
}
