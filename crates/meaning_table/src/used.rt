//! Names in use, by their places, and the required identifiers.

ghost use Rattle.std.specs.Prelude.{◌≡◌, reverse, IfOk};
ghost use Rattle.estelle_model.specs.declared.meaning.Meaning.TheVariants.{Other};
ghost use Rattle.estelle_model.specs.Names as spec;
ghost use Rattle.meaning_table.specs.Known.{by_place};
ghost use Rattle.meaning_table.specs.Held.{names_of};

use crate::required::{Words, required_words};
use estelle_model::Meaning;
use estelle_tree::{Name, Names, Sequence, Span, Use};
use place_table::Places;
use std::alloc::{AllocError, Global};
use std::marker::Model;

/// For each name in use, the name in its declaration; and what the required identifiers mean.
pub struct UsedNames<'a> {
    /// By the place of a name in use.
    names: Places<Use>,
    required: Words<'a>,
    other: Meaning<'a>,
}

impl Drop for UsedNames<'_> {
    fn drop(self) {
        let UsedNames {
            names: _,
            required: _,
            other: _,
        } = self;
    }
}

impl<'a> Model for UsedNames<'a> {
    ghost use Rattle.std.specs.Prelude.{◌≡◌, List, map, reverse};
    ghost use Rattle.estelle_tree.specs.declared.names.Use.{Use};
    ghost use Rattle.estelle_model.specs.declared.meaning.Meaning.TheVariants.{Other};
    ghost use Rattle.estelle_model.specs.Names as meant;
    ghost use Rattle.meaning_table.specs.Known.{by_place};

    ghost Value = { List Use };

    ghost view = { λ n. map (λ u. u.1) (reverse n.names) };

    ghost invariant = { λ n. (reverse n.names ≡ by_place (map (λ u. u.1) (reverse n.names))) × (n.required ≡ meant.required) × (n.other ≡ Other) };
}

/// The names in use by their places. Of two at one place the first counts, and so it is the latest.
fn names_by_place(alloc: Global, names: &[Use]) -> Result<Places<Use>, AllocError>
    ensures { IfOk result (λ places. reverse places ≡ by_place names.now) }
{
    let mut places = Places::new(alloc);
    let mut i = names.len();
    while 0 < i {
        i -= 1;
        places.push(names[i].at.start, names[i])?;
    }
    Ok(places)
}

impl<'a> UsedNames<'a> {
    pub fn of(alloc: Global, names: &Names) -> Result<UsedNames<'a>, AllocError>
        ensures { IfOk result (λ used. used ≡ names.now.uses) }
    {
        let names = names_by_place(alloc, names.uses.items())?;
        let required = required_words(alloc)?;
        Ok(UsedNames {
            names,
            required,
            other: Meaning::Other,
        })
    }

    /// The name in the declaration of a name in use.
    pub fn declaration_of(&self, name: &Name) -> Option<Span>
        ensures { result ≡ spec.declaration_of self.now name.now }
    {
        match self.names.get(name.span.start).copied() {
            None => None,
            Some(used) => Some(used.decl),
        }
    }

    pub fn required_meaning(&self, word: &[u8]) -> &Meaning<'a>
        ensures { result.now ≡ spec.required_meaning word.now }
    {
        if let Some(meaning) = self.required.find(word) {
            return meaning;
        }
        &self.other
    }

    /// What a name means that means nothing.
    pub fn other(&self) -> &Meaning<'a>
        ensures { result.now ≡ Other }
    {
        &self.other
    }
}

/// A table's own, or those of a table that it lies over.
pub enum HeldNames<'a> {
    Own(UsedNames<'a>),
    Lent(&'a UsedNames<'a>),
}

impl Drop for HeldNames<'_> {
    fn drop(self) {
        match self {
            HeldNames::Own(_) => {}
            HeldNames::Lent(_) => {}
        }
    }
}

impl<'a> HeldNames<'a> {
    pub fn get(&self) -> &UsedNames<'a>
        ensures { result.now ≡ names_of self.now }
    {
        match self {
            HeldNames::Own(names) => names,
            HeldNames::Lent(names) => names,
        }
    }
}
