//! Lists that many transitions share.

ghost use Rattle.std.specs.Prelude.{◌≡◌, IfOk};

use estelle_tree::{Items, Sequence};
use std::alloc::{AllocError, Global};
use std::marker::Model;
use std::sync::Arc;

/// Items that are shared by all that have them.
pub struct Shared<T> {
    items: Arc<Items<T>>,
}

impl<T: Drop> Drop for Shared<T> {
    fn drop(self) {
        let Shared { items: _ } = self;
    }
}

impl<T> Model for Shared<T> {
    ghost use Rattle.std.specs.Prelude.{List};
    ghost use Rattle.std.specs.Coded.{coded_list};

    ghost Value = { List T };

    ghost coded = { coded_list T.code };

    ghost view = { λ s. s.items.value };
}

impl<T: Drop> Shared<T> {
    pub fn of(alloc: Global, items: Items<T>) -> Result<Shared<T>, AllocError>
        ensures { IfOk result (λ shared. shared ≡ items) }
    {
        match Arc::new(alloc, items) {
            Ok(items) => Ok(Shared { items }),
            Err(_) => Err(AllocError),
        }
    }

    /// One more owner of them. It takes no memory; it fails where the count of owners is full.
    pub fn share(&self) -> Result<Shared<T>, AllocError>
        ensures { IfOk result (λ shared. shared ≡ self.now) }
    {
        Ok(Shared {
            items: self.items.clone()?,
        })
    }

    pub fn items(&self) -> &[T]
        ensures { result.now ≡ self.now }
    {
        let items: &Items<T> = self.items.as_ref();
        items.items()
    }
}
