//! The required identifiers (ISO 7185, 6.1.3).

ghost use Rattle.std.specs.Prelude.{◌≡◌, ◌∷◌, [], ◌++◌, map, IfOk, OnOk};
ghost use Rattle.std.specs.Map.{lookup};
ghost use Rattle.std.specs.Option.{option_copied};
ghost use Rattle.std.specs.Str.{bytes_eq};
ghost use Rattle.estelle_model.specs.declared.meaning.Meaning.TheVariants.{TypeName, Constant};
ghost use Rattle.estelle_model.specs.Types as types;
ghost use Rattle.estelle_model.specs.Names.{meaning_of_required, required};

use crate::hosts::whole;
use estelle_model::{Host, Meaning};
use estelle_tree::{IDENTIFIERS, Items, RequiredIdentifier, Sequence};
use pascal_values::{MAXINT, Value};
use std::alloc::{AllocError, Global};
use std::marker::Model;

/// Words with what they mean.
#[derive(Drop)]
pub struct Words<'a> {
    words: Items<(&'static [u8], Meaning<'a>)>,
}

impl<'a> Model for Words<'a> {
    ghost use Rattle.std.specs.Prelude.{ℕ, List, map};
    ghost use Rattle.estelle_model.specs.declared.meaning.Meaning.{Meaning};
    ghost use Rattle.pascal_values.specs.contracts.value.Value as of_values;
    ghost use Rattle.estelle_model.specs.contracts.denoter.Denoter as of_denoters;
    ghost use Rattle.estelle_tree.specs.contracts.tree.statement.Stmts as of_statements;
    ghost use Rattle.std.specs.Coded.{codes};

    ghost Value = { List (List ℕ × Meaning) };

    ghost coded = { Prim.hlevel (codes, of_values.the_row.coded, of_denoters.the_row.coded, of_statements.the_row.coded) };

    ghost view = { λ w. map (λ e. (e.0.now, e.1)) w.words };
}

fn is_same(a: &[u8], b: &[u8]) -> bool
    ensures { result ≡ bytes_eq a.now b.now }
{
    a == b
}

fn find_word<'t, 'a>(
    mut words: &'t [(&'static [u8], Meaning<'a>)],
    word: &[u8],
) -> Option<&'t Meaning<'a>>
    ensures { option_copied result ≡ lookup (bytes_eq word.now) (map (λ e. (e.0.now, e.1)) words.entry.now) }
{
    while let [first, rest @ ..] = words {
        if is_same(word, first.0) {
            return Some(&first.1);
        }
        words = rest;
    }
    None
}

impl<'a> Words<'a> {
    fn push(&mut self, word: &'static [u8], meaning: Meaning<'a>) -> Result<(), AllocError>
        ensures { OnOk result (self.new ≡ self.old ++ (word.now, meaning.entry) ∷ []) }
    {
        self.words.push((word, meaning))
    }

    /// What a word means.
    pub fn find(&self, word: &[u8]) -> Option<&Meaning<'a>>
        ensures { option_copied result ≡ lookup (bytes_eq word.now) self.now }
    {
        find_word(self.words.items(), word)
    }
}

fn of_type<'a>(alloc: Global, host: Host) -> Result<Meaning<'a>, AllocError>
    ensures { IfOk result (λ meaning. meaning ≡ TypeName (types.whole host)) }
{
    Ok(Meaning::TypeName(whole(alloc, host)?))
}

fn of_constant<'a>(value: Value, host: Host) -> Meaning<'a>
    ensures { result ≡ Constant value host }
{
    Meaning::Constant { value, host }
}

fn meaning_of<'a>(alloc: Global, identifier: RequiredIdentifier) -> Result<Meaning<'a>, AllocError>
    ensures { IfOk result (λ meaning. meaning ≡ meaning_of_required identifier) }
{
    match identifier {
        RequiredIdentifier::Integer => of_type(alloc, Host::Integer),
        RequiredIdentifier::Boolean => of_type(alloc, Host::Boolean),
        RequiredIdentifier::Char => of_type(alloc, Host::Char),
        RequiredIdentifier::False => Ok(of_constant(Value::Bool(false), Host::Boolean)),
        RequiredIdentifier::True => Ok(of_constant(Value::Bool(true), Host::Boolean)),
        RequiredIdentifier::Maxint => Ok(of_constant(Value::Int(MAXINT), Host::Integer)),
        RequiredIdentifier::Function(function) => Ok(Meaning::RequiredFunction(function)),
    }
}

fn push_required(
    words: &mut Words,
    alloc: Global,
    identifier: &(&'static [u8], RequiredIdentifier),
) -> Result<(), AllocError>
    ensures { OnOk result (words.new ≡ words.old ++ (identifier.now.0.now, meaning_of_required identifier.now.1) ∷ []) }
{
    words.push(identifier.0, meaning_of(alloc, identifier.1)?)
}

fn words_of<'a>(
    alloc: Global,
    mut identifiers: &[(&'static [u8], RequiredIdentifier)],
) -> Result<Words<'a>, AllocError>
    ensures { IfOk result (λ words. words ≡ map (λ e. (e.0.now, meaning_of_required e.1)) identifiers.entry.now) }
{
    let mut words = Words {
        words: Items::new(alloc),
    };
    while let [identifier, rest @ ..] = identifiers {
        push_required(&mut words, alloc, identifier)?;
        identifiers = rest;
    }
    Ok(words)
}

/// What the required identifiers mean.
pub fn required_words<'a>(alloc: Global) -> Result<Words<'a>, AllocError>
    ensures { IfOk result (λ words. words ≡ required) }
{
    words_of(alloc, &IDENTIFIERS)
}
