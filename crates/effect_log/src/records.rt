//! The records of the image.

ghost use Rattle.std.specs.Prelude.{◌≡◌};
ghost use Rattle.module_tree.specs.Trees.{changed, with_other_part};
ghost use Rattle.effect_log.specs.Underway.{written};

use estelle_model::Part;
use estelle_tree::Items;
use module_tree::Tree;

/// Writes the record of an instance, if it is there.
fn write(tree: &mut Tree<Part>, part: Part)
    ensures instances { tree.new.instances ≡ changed tree.old.instances part.path (with_other_part part) }
    ensures spare { tree.new.spare ≡ tree.old.spare }
{
    if let Some(kept) = tree.get_mut(&part.path) {
        *kept = part;
    }
}

/// Writes the records of instances that are there.
pub(crate) fn write_all(tree: &mut Tree<Part>, parts: Items<Part>)
    ensures { tree.new.instances ≡ written parts tree.old.instances }
{
    let mut parts = parts;
    while let Some(part) = parts.pop() {
        write(tree, part);
    }
}
