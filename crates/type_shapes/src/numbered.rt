//! The first of some shapes that is a given one.

ghost use Rattle.std.specs.Prelude.{◌≡◌, [], IfOk, OnOk};
ghost use Rattle.std.specs.Map.{lookup};
ghost use Rattle.std.specs.Str.{bytes_eq};
ghost use Rattle.indexmap.specs.IndexMap.{insert_entry};
ghost use Rattle.type_shapes.specs.Spelling as spec;
ghost use Rattle.type_shapes.specs.Numbered.{AreFirst};

use crate::spellings::spelling;
use indexmap::IndexMap;
use pascal_values::Shape;
use std::alloc::{AllocError, Global};
use std::marker::Model;

/// What spells shapes, each with the number of a shape, seen as that list.
pub struct NumberedShapes {
    numbers: IndexMap<Vec<u64>, u32>,
}

impl Drop for NumberedShapes {
    fn drop(self) {
        let NumberedShapes { numbers: _ } = self;
    }
}

impl Model for NumberedShapes {
    ghost use Rattle.std.specs.Prelude.{map};
    ghost use Rattle.type_shapes.specs.Numbered.{Numbered};

    ghost Value = { Numbered };

    ghost view = { λ t. map (λ e. (e.0.items, e.1)) t.numbers.entries };
}

impl NumberedShapes {
    fn new(alloc: Global) -> NumberedShapes
        ensures { result ≡ [] }
    {
        NumberedShapes {
            numbers: IndexMap::new(alloc),
        }
    }

    /// The number of a shape in place of another's that is spelt alike.
    fn put(&mut self, alloc: Global, shape: &Shape, number: u32) -> Result<(), AllocError>
        ensures { OnOk result (self.new ≡ insert_entry bytes_eq self.old (spec.spelling shape.now) number) }
    {
        let text = spelling(alloc, shape)?;
        self.numbers.insert(text, number)?;
        Ok(())
    }

    /// Of shapes that are numbered from 0.
    pub fn of(alloc: Global, shapes: &[Shape]) -> Result<NumberedShapes, AllocError>
        ensures { IfOk result (AreFirst 0 shapes.now) }
    {
        let mut numbers = NumberedShapes::new(alloc);
        let mut i = shapes.len();
        while 0 < i {
            i -= 1;
            match u32::try_from(i) {
                Ok(number) => numbers.put(alloc, &shapes[i], number)?,
                Err(_) => return Err(AllocError),
            }
        }
        Ok(numbers)
    }

    /// The number of the first shape that is this one.
    pub fn find(&self, alloc: Global, shape: &Shape) -> Result<Option<u32>, AllocError>
        ensures { IfOk result (λ number. number ≡ lookup (bytes_eq (spec.spelling shape.now)) self.now) }
    {
        let text = spelling(alloc, shape)?;
        Ok(self.numbers.get(text.as_slice()).copied())
    }
}
