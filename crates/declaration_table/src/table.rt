//! What is known where declarations speak.

ghost use Rattle.std.specs.Prelude.{◌≡◌, nat_eq, IfOk, OnOk};
ghost use Rattle.std.specs.Map.{lookup};
ghost use Rattle.type_rules.specs.Meanings as spec;
ghost use Rattle.type_rules.specs.TypeSites as types;

use estelle_tree::{Const, Items, Name, Names, Ordinal, Sequence, Span, Use};
use indexmap::IndexMap;
use std::alloc::{AllocError, Global};
use std::marker::Model;
use type_rules::{
    Denoted, Entity, Host, Meaning, Parameter, PascalType, Value, constant_host, constant_value,
    required_meaning, signed_host, signed_number, signed_value, simple, subrange, type_denoted,
};

/// For each place of a name in use the name in its declaration, and for each place of a declaration what it says.
pub struct Table {
    pub alloc: Global,
    uses: IndexMap<u32, Span>,
    places: IndexMap<u32, Entity>,
}

impl Drop for Table {
    fn drop(self) {
        let Table {
            alloc: _,
            uses: _,
            places: _,
        } = self;
    }
}

impl Model for Table {
    ghost use Rattle.type_rules.specs.Meanings.{Env};

    ghost Value = { Env };

    ghost view = { λ t. record { uses = t.uses.entries; places = t.places.entries } };
}

/// Puts a value at a place where none stands.
fn put_first<V: Drop>(values: &mut IndexMap<u32, V>, at: u32, value: V) -> Result<(), AllocError>
    ensures { OnOk result (values.new.entries ≡ spec.put_first at value values.old.entries) }
{
    if values.get(&at).is_some() {
        return Ok(());
    }
    values.insert(at, value)?;
    Ok(())
}

fn uses_of(alloc: Global, names: &[Use]) -> Result<IndexMap<u32, Span>, AllocError>
    ensures { IfOk result (λ uses. uses.entries ≡ (spec.start names.now).uses) }
{
    let mut uses = IndexMap::new(alloc);
    for used in names {
        put_first(&mut uses, used.at.start, used.decl)?;
    }
    Ok(uses)
}

impl Table {
    /// Nothing is declared yet.
    pub fn new(alloc: Global, names: &Names) -> Result<Table, AllocError>
        ensures { IfOk result (λ table. table ≡ spec.start names.now.uses) }
    {
        let uses = uses_of(alloc, names.uses.items())?;
        Ok(Table {
            alloc,
            uses,
            places: IndexMap::new(alloc),
        })
    }

    /// Declares at a place, where nothing is declared there.
    #[tactic(auto, unfolding(type_rules::specs::Meanings::with_entity))]
    pub fn declare(&mut self, at: u32, entity: Entity) -> Result<(), AllocError>
        ensures { OnOk result (self.new ≡ spec.with_entity self.old at entity) }
    {
        put_first(&mut self.places, at, entity)
    }

    /// Declares without parameters.
    pub fn declare_as(&mut self, at: u32, meaning: Meaning) -> Result<(), AllocError>
        ensures { OnOk result (self.new ≡ spec.with_entity self.old at (types.meaning_only meaning)) }
    {
        let parameters = Items::new(self.alloc);
        self.declare(
            at,
            Entity {
                meaning,
                parameters,
            },
        )
    }

    /// The name in the declaration of a name in use.
    pub fn declaration_of(&self, name: &Name) -> Option<Span>
        ensures { result ≡ spec.declaration_of self.now name.now }
    {
        self.uses.get(&name.span.start).copied()
    }

    fn meaning_at(&self, at: u32) -> Meaning
        ensures { result ≡ (spec.entity_at self.now at).meaning }
    {
        match self.places.get(&at) {
            None => Meaning::Nothing,
            Some(entity) => entity.meaning,
        }
    }

    /// What a name means.
    pub fn known(&self, name: &Name) -> Meaning
        ensures { result ≡ spec.known self.now name.now }
    {
        match self.declaration_of(name) {
            None => Meaning::Nothing,
            Some(decl) => {
                if decl.end == 0 {
                    return required_meaning(name.word.items());
                }
                self.meaning_at(decl.start)
            }
        }
    }

    fn parameters_at(&self, at: u32) -> &[Parameter]
        ensures { result.now ≡ (spec.entity_at self.now at).parameters }
    {
        match self.places.get(&at) {
            None => &[],
            Some(entity) => entity.parameters.items(),
        }
    }

    /// The parameters of what a name means.
    pub fn parameters(&self, name: &Name) -> &[Parameter]
        ensures { result.now ≡ spec.parameters self.now name.now }
    {
        match self.declaration_of(name) {
            None => &[],
            Some(decl) => {
                if decl.end == 0 {
                    return &[];
                }
                match self.meaning_at(decl.start) {
                    Meaning::Body { header } => self.parameters_at(header),
                    _ => self.parameters_at(decl.start),
                }
            }
        }
    }

    /// What is declared of an array type, where it begins.
    pub fn array_of(&self, u: PascalType) -> Meaning
        ensures { result ≡ spec.array_of self.now u }
    {
        match u {
            PascalType::Array { at } => self.meaning_at(at.start),
            _ => Meaning::Nothing,
        }
    }

    /// The type that a name of a type names.
    pub fn named_type(&self, name: &Name) -> Option<PascalType>
        ensures { result ≡ spec.named_type self.now name.now }
    {
        type_denoted(self.known(name)).type_
    }

    /// The type of a constant.
    pub fn const_host(&self, constant: &Const) -> Option<Host>
        ensures { result ≡ spec.const_host self.now constant.now }
    {
        match constant {
            Const::Number { .. } => Some(Host::Integer),
            Const::Name { sign, name, .. } => signed_host(*sign, constant_host(self.known(name))),
            Const::Char { .. } => Some(Host::Char),
        }
    }

    /// The value of a constant.
    pub fn const_value(&self, constant: &Const) -> Option<Value>
        ensures { result ≡ spec.const_value self.now constant.now }
    {
        match constant {
            Const::Number { sign, value, .. } => Some(Value {
                host: Host::Integer,
                ordinal: signed_number(*sign, *value),
            }),
            Const::Name { sign, name, .. } => signed_value(*sign, constant_value(self.known(name))),
            Const::Char { value, .. } => Some(Value {
                host: Host::Char,
                ordinal: *value as i64,
            }),
        }
    }

    /// What an ordinal type denotes.
    pub fn ordinal_type(&self, ordinal: &Ordinal) -> Denoted
        ensures { result ≡ types.ordinal_type self.now ordinal.now }
    {
        match ordinal {
            Ordinal::Name(name) => type_denoted(self.known(name)),
            Ordinal::Enumeration { names, span } => enumeration(*span, names.names.items()),
            Ordinal::Subrange { low, high, span } => subrange(
                *span,
                self.const_value(low),
                self.const_value(high),
            ),
        }
    }
}

/// An enumeration that stands there, with these values.
fn enumeration(at: Span, values: &[Name]) -> Denoted
    ensures { result ≡ types.enumeration at values.now }
{
    let greatest = values.len().saturating_sub(1) as i64;
    simple(
        Some(PascalType::Whole(Host::Enumeration { at })),
        0,
        greatest,
    )
}
