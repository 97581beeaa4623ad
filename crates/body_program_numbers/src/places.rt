//! Numbers of what stands at places.

ghost use Rattle.std.specs.Prelude.{◌≡◌, [], ◌++◌, length, map, IfOk, OnOk};
ghost use Rattle.body_program_numbers.specs.Places as spec;

use estelle_tree::{Items, Sequence};
use meaning_table::behind;
use place_table::Places;
use std::alloc::{AllocError, Global};
use std::marker::Model;

/// The places of a list, each with the number of the list and the number in it.
fn push_list(numbers: &mut Places<(u32, u32)>, list: u32, places: &[u32]) -> Result<(), AllocError>
    ensures { OnOk result (numbers.new ≡ numbers.old ++ spec.list_from list 0 places.now) }
{
    let mut number = 0;
    for place in places {
        numbers.push(*place, (list, number))?;
        number = behind(number, 1)?;
    }
    Ok(())
}

/// The places of lists, each with the number of its list and its number there.
pub fn number_lists(alloc: Global, lists: &[Items<u32>]) -> Result<Places<(u32, u32)>, AllocError>
    ensures { IfOk result (λ numbers. numbers ≡ spec.lists_from 0 lists.now) }
{
    let mut numbers = Places::new(alloc);
    let mut list = 0;
    for places in lists {
        push_list(&mut numbers, list, places.items())?;
        list = behind(list, 1)?;
    }
    Ok(numbers)
}

/// The places of one list with their numbers, seen as that list.
pub struct PlaceNumbers {
    numbers: Places<(u32, u32)>,
    count: u32,
}

impl Drop for PlaceNumbers {
    fn drop(self) {
        let PlaceNumbers {
            numbers: _,
            count: _,
        } = self;
    }
}

impl Model for PlaceNumbers {
    ghost use Rattle.std.specs.Prelude.{◌≡◌, ℕ, List, map, length};
    ghost use Rattle.std.specs.Coded.{coded_list, coded_ℕ};
    ghost use Rattle.body_program_numbers.specs.Places.{list_from};

    ghost Value = { List ℕ };

    ghost coded = { coded_list coded_ℕ };

    ghost view = { λ p. map (λ e. e.0) p.numbers };

    ghost invariant = { λ p. (p.numbers ≡ list_from 0 0 (map (λ e. e.0) p.numbers)) × (p.count ≡ length (map (λ e. e.0) p.numbers)) };
}

impl PlaceNumbers {
    pub fn of(alloc: Global, places: &[u32]) -> Result<PlaceNumbers, AllocError>
        ensures { IfOk result (λ numbers. numbers ≡ places.now) }
    {
        let mut numbers = Places::new(alloc);
        push_list(&mut numbers, 0, places)?;
        let count = behind(0, places.len())?;
        Ok(PlaceNumbers { numbers, count })
    }

    /// The number of a place; behind all, where it is not there.
    pub fn number(&self, place: u32) -> u32
        ensures { result ≡ spec.number_in self.now place }
    {
        match self.numbers.get(place) {
            None => self.count,
            Some(number) => number.1,
        }
    }
}
