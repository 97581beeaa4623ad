ghost use Rattle.std.specs.Prelude.{◌≡◌, ◌<◌, List, [], length, slice_set};
ghost use Rattle.std.specs.declared.alloc.Global.{Global};

use crate::items::Items;
use std::alloc::Global;

/// A list that is read.
pub trait Sequence<T> {
    /// The list that it is seen as.
    ghost list: { Self → List T };

    /// The items in order. It takes no memory.
    fn items(&self) -> &[T]
        ensures { result.now ≡ list self.now };
}

/// What every list type that owns its items offers beside `push`.
pub trait SequenceMut<T> {
    /// The list that it is seen as.
    ghost list: { Self → List T };

    /// The empty list. It takes no memory.
    fn none(alloc: Global) -> Self
        ensures { list result ≡ [] };

    /// Puts an item in the place of another. It takes no memory.
    fn put_at(&mut self, at: usize, item: T)
        requires { at < length (list self.old) }
        ensures { list self.new ≡ slice_set (list self.old) at item };
}

impl<T> Sequence<T> for Items<T> {
    ghost list = { λ items. items };

    fn items(&self) -> &[T] {
        self.as_slice()
    }
}

impl<T: Drop> SequenceMut<T> for Items<T> {
    ghost list = { λ items. items };

    fn none(alloc: Global) -> Self {
        Items::new(alloc)
    }

    fn put_at(&mut self, at: usize, item: T) {
        self.set(at, item);
    }
}
