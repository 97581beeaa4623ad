//! The stack of a unit.

ghost use Rattle.std.specs.Prelude.{◌≡◌, ◌≤◌, vec_len, [], ◌∷◌, ◌++◌, take, drop, reverse, true, false, None, Some, OnOk, OnErr, IfOk, MatchOption};
ghost use Rattle.body_machine.specs.Steps.{taken_from};

use crate::item::Item;
use crate::spare::Spare;
use estelle_model::Place;
use estelle_tree::Path;
use std::alloc::{AllocError, Global};
use std::marker::Model;
use std::mem;

/// Items, seen with the topmost first.
pub struct Stack {
    items: Vec<Item>,
    spare: Spare,
}

impl Drop for Stack {
    fn drop(self) {
        let Stack { items: _, spare: _ } = self;
    }
}

impl Model for Stack {
    ghost use Rattle.std.specs.Prelude.{List, reverse};
    ghost use Rattle.std.specs.Coded.{coded_list};
    ghost use Rattle.body_machine.specs.declared.item.Item.{Item};
    ghost use Rattle.body_machine.specs.contracts.item.Item as of_item;

    ghost Value = { List Item };

    ghost coded = { coded_list of_item.the_row.coded };

    ghost view = { λ s. reverse s.items.items };
}

impl Stack {
    pub fn none(alloc: Global) -> Stack
        ensures { result ≡ [] }
    {
        Stack {
            items: Vec::new(alloc),
            spare: Spare::none(alloc),
        }
    }

    /// The empty stack of a unit that is called, to which spare memory goes over.
    pub(crate) fn of_callee(&mut self, alloc: Global) -> Stack
        ensures empty { result ≡ [] }
        ensures same { self.new ≡ self.old }
    {
        let mut spare = mem::replace(&mut self.spare, Spare::none(alloc));
        Stack {
            items: spare.stack(alloc),
            spare,
        }
    }

    /// A copy of a path.
    pub(crate) fn copy_path(&mut self, alloc: Global, path: &Path) -> Result<Path, AllocError>
        ensures ok { IfOk result (λ copy. copy ≡ path.now) }
        ensures same { self.new ≡ self.old }
    {
        self.spare.path(alloc, path)
    }

    /// A path that is not in use any more.
    pub(crate) fn keep_path(&mut self, path: Path)
        ensures { self.new ≡ self.old }
    {
        self.spare.keep_path(path);
    }

    /// A place that is not in use any more.
    pub(crate) fn keep_place(&mut self, place: Place)
        ensures { self.new ≡ self.old }
    {
        if let Place::Of { path, .. } = place {
            self.spare.keep_path(path);
        }
    }

    pub fn push(&mut self, item: Item) -> Result<(), AllocError>
        ensures ok { OnOk result (self.new ≡ item ∷ self.old) }
        ensures err { OnErr result (self.new ≡ self.old) }
    {
        match self.items.push(item) {
            Ok(()) => Ok(()),
            Err(_) => Err(AllocError),
        }
    }

    pub fn pop(&mut self) -> Option<Item>
        ensures { MatchOption result ((self.old ≡ []) × (self.new ≡ [])) (λ item. self.old ≡ item ∷ self.new) }
    {
        self.items.pop()
    }

    /// So many from the top, the lowest first; none where there are fewer.
    #[tactic(auto, using(crate::proofs::Stacked::enough, crate::proofs::Stacked::too_few))]
    pub fn take_top(&mut self, count: usize) -> Result<Option<Stack>, AllocError>
        ensures { IfOk result (λ o. MatchOption o (taken_from count self.old ≡ None) (λ items. taken_from count self.old ≡ Some (items, self.new))) }
    {
        let len = self.items.len();
        if len < count {
            return Ok(None);
        }
        let items = self.items.split_off(len - count)?;
        Ok(Some(first_on_top(items)))
    }

    /// Turns so many items on top round, so that the lowest of them is the topmost one; whether there are so many.
    #[tactic(auto, using(crate::proofs::Stacked::turned, crate::proofs::Stacked::too_few))]
    pub(crate) fn turn_top(&mut self, count: usize) -> bool
        ensures enough { result ≡ true → taken_from count self.old ≡ Some (take count self.new, drop count self.new) }
        ensures too_few { result ≡ false → taken_from count self.old ≡ None }
    {
        let len = self.items.len();
        if len < count {
            return false;
        }
        turn_from(&mut self.items, len - count);
        true
    }

    /// Others go on top, in their order.
    pub fn put_all(&mut self, mut above: Stack) -> Result<(), AllocError>
        ensures { OnOk result (self.new ≡ above ++ self.old) }
    {
        self.items.append(&mut above.items)?;
        let Stack { items, mut spare } = above;
        spare.keep_stack(items);
        self.spare = spare;
        Ok(())
    }
}

/// Turns the items from a place on round.
fn turn_from(items: &mut Vec<Item>, place: usize)
    requires { place ≤ vec_len items.old }
    ensures { items.new.items ≡ take place items.old.items ++ reverse (drop place items.old.items) }
{
    let (_below, above) = items.split_at_mut(place);
    above.reverse();
}

/// Items with the first on top.
fn first_on_top(mut items: Vec<Item>) -> Stack
    ensures { result ≡ items.items }
{
    items.reverse();
    let spare = Spare::none(*items.allocator());
    Stack { items, spare }
}
