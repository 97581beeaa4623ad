//! Lists with several owners.

ghost use Rattle.std.specs.Prelude.{◌≡◌, [], IfOk};

use estelle_tree::{Items, Sequence};
use std::alloc::{AllocError, Global};
use std::marker::Model;
use std::sync::Arc;

/// A list that several owners share, in any threads, seen as its items.
pub struct Shared<T> {
    items: Option<Arc<Items<T>>>,
}

impl<T: Drop> Drop for Shared<T> {
    fn drop(self) {
        let Shared { items: _ } = self;
    }
}

impl<T> Model for Shared<T> {
    ghost use Rattle.std.specs.Prelude.{List};
    ghost use Rattle.std.specs.Coded.{coded_list};
    ghost use Rattle.body_code.specs.Shared.{shared_items};

    ghost Value = { List T };

    ghost coded = { coded_list T.code };

    ghost view = { λ s. shared_items s.items };
}

impl<T> Shared<T> {
    /// The empty list. It takes no memory.
    pub fn none() -> Shared<T>
        ensures { result ≡ [] }
    {
        Shared { items: None }
    }
}

impl<T: Drop> Shared<T> {
    /// The list of these items, with one owner.
    pub fn of(alloc: Global, items: Items<T>) -> Result<Shared<T>, AllocError>
        ensures { IfOk result (λ shared. shared ≡ items) }
    {
        Ok(Shared {
            items: Some(Arc::new(alloc, items)?),
        })
    }

    /// One more owner. It takes no memory, and fails where there are 2^63 - 1 owners.
    pub fn share(&self) -> Result<Shared<T>, AllocError>
        ensures { IfOk result (λ shared. shared ≡ self.now) }
    {
        match &self.items {
            None => Ok(Shared { items: None }),
            Some(items) => Ok(Shared {
                items: Some(items.clone()?),
            }),
        }
    }
}

impl<T> Sequence<T> for Shared<T> {
    ghost list = { λ shared. shared };

    fn items(&self) -> &[T] {
        match &self.items {
            None => &[],
            Some(items) => items.as_slice(),
        }
    }
}
