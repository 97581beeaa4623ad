//! Open and kept scopes.

ghost use Rattle.std.specs.Prelude.{◌≡◌, ◌||◌, map, reverse, nat_eq, OnOk, IfOk, false};
ghost use Rattle.scope_rules.specs.Kinds.{is_private, is_of_channel};
ghost use Rattle.scope_rules.specs.Visible as visible;
ghost use Rattle.scope_rules.specs.Scopes as spec;
ghost use Rattle.scope_rules.specs.declared.event.Event.TheVariants.{Open, Close, Keep};
ghost use Rattle.scope_names.specs.Common as common;
ghost use Rattle.scope_names.specs.Levels.{level_of};

use crate::names::{NameTable, earlier};
use indexmap::IndexMap;
use scope_rules::{Declared, Denotes, Members, ScopeForm};
use std::alloc::{AllocError, Global};
use std::marker::Model;

/// An open scope.
#[derive(Drop)]
pub struct OpenScope {
    form: ScopeForm,
    names: NameTable,
    within: Members,
}

/// What stands after some events, seen as the definitions have it.
#[derive(Drop)]
pub struct Table {
    /// From the outermost to the innermost.
    levels: Vec<OpenScope>,
    kept: IndexMap<u32, NameTable>,
    brought: IndexMap<u32, Members>,
}

impl Model for Table {
    ghost use Rattle.std.specs.Prelude.{map, reverse};
    ghost use Rattle.scope_rules.specs.Visible.{Scopes};
    ghost use Rattle.scope_names.specs.Levels.{level_of};

    ghost Value = { Scopes };

    ghost view = { λ t. record { levels = reverse (map level_of t.levels.items); kept = t.kept.entries; brought = t.brought.entries } };
}

fn is_private(denotes: Denotes) -> bool
    ensures { result ≡ is_private denotes }
{
    match denotes {
        Denotes::Variable
        | Denotes::Exported
        | Denotes::ModuleVariable
        | Denotes::Ip
        | Denotes::State
        | Denotes::StateSet => true,
        _ => false,
    }
}

fn is_of_channel(denotes: Denotes) -> bool
    ensures { result ≡ is_of_channel denotes }
{
    match denotes {
        Denotes::Role | Denotes::Interaction => true,
        _ => false,
    }
}

fn is_further(form: ScopeForm) -> bool
    ensures { result ≡ visible.is_further form }
{
    match form {
        ScopeForm::Further => true,
        ScopeForm::Inner | ScopeForm::Body => false,
    }
}

fn is_body(form: ScopeForm) -> bool
    ensures { result ≡ visible.is_body form }
{
    match form {
        ScopeForm::Body => true,
        ScopeForm::Inner | ScopeForm::Further => false,
    }
}

/// What a name means among those that are kept for a place.
fn in_kept(kept: &IndexMap<u32, NameTable>, at: u32, word: &[u8]) -> Option<Declared>
    ensures { result ≡ visible.in_names word.now (visible.kept_at kept.now.entries at) }
{
    match kept.get(&at) {
        None => None,
        Some(names) => names.find(word),
    }
}

/// What a name means among members.
fn in_members(kept: &IndexMap<u32, NameTable>, members: Members, word: &[u8]) -> Option<Declared>
    ensures { result ≡ visible.in_names word.now (visible.member_names kept.now.entries members) }
{
    match members {
        Members::KeptAt(at) => in_kept(kept, at, word),
        Members::Nothing | Members::AtFault => None,
    }
}

/// The one that comes first in the text, where there may be none.
fn earliest(first: Option<Declared>, second: Option<Declared>) -> Option<Declared>
    ensures { result ≡ visible.earliest first second }
{
    match (first, second) {
        (None, second) => second,
        (first, None) => first,
        (Some(d), Some(e)) => Some(earlier(d, e)),
    }
}

fn in_level(kept: &IndexMap<u32, NameTable>, level: &OpenScope, word: &[u8]) -> Option<Declared>
    ensures { result ≡ visible.in_level kept.now.entries word.now (level_of level.now) }
{
    earliest(level.names.find(word), in_members(kept, level.within, word))
}

/// What was found, where it is a name alone.
fn alone(found: Option<Declared>) -> Option<Declared>
    ensures { result ≡ visible.alone found }
{
    match found {
        None => None,
        Some(d) => if is_of_channel(d.denotes) {
            None
        } else {
            Some(d)
        },
    }
}

/// What was found outside of a body, or in it, is meant or hidden.
fn seen(outside: bool, found: Declared) -> Option<Declared>
    ensures { result ≡ visible.seen outside found }
{
    if outside {
        if is_private(found.denotes) {
            return None;
        }
    }
    Some(found)
}

fn find_meaning(
    kept: &IndexMap<u32, NameTable>,
    levels: &[OpenScope],
    word: &[u8],
) -> Option<Declared>
    ensures { result ≡ visible.meaning_of kept.now.entries word.now false (reverse (map level_of levels.now)) }
{
    let mut outside = false;
    let mut i = levels.len();
    while 0 < i {
        i -= 1;
        let level = &levels[i];
        if let Some(found) = alone(in_level(kept, level, word)) {
            return seen(outside, found);
        }
        outside = outside || is_body(level.form);
    }
    None
}

fn find_in_scope(
    kept: &IndexMap<u32, NameTable>,
    levels: &[OpenScope],
    word: &[u8],
) -> Option<Declared>
    ensures { result ≡ visible.in_scope_of kept.now.entries word.now (reverse (map level_of levels.now)) }
{
    let mut first = None;
    let mut i = levels.len();
    while 0 < i {
        i -= 1;
        let level = &levels[i];
        first = earliest(first, in_level(kept, level, word));
        if !is_further(level.form) {
            return first;
        }
    }
    first
}

/// Whether some name of a scope stands among these, and is not left out.
fn level_shares(
    kept: &IndexMap<u32, NameTable>,
    level: &OpenScope,
    others: &NameTable,
    without: &NameTable,
) -> bool
    ensures { result ≡ common.shares_level kept.now.entries others.now without.now (level_of level.now) }
{
    if level.names.shares(others, without) {
        return true;
    }
    members_share(kept, level.within, others, without)
}

/// Whether some name of these members stands among others, and is not left out.
fn members_share(
    kept: &IndexMap<u32, NameTable>,
    members: Members,
    others: &NameTable,
    without: &NameTable,
) -> bool
    ensures { result ≡ common.shares (visible.member_names kept.now.entries members) others.now without.now }
{
    match members {
        Members::KeptAt(at) => kept_shares(kept, at, others, without),
        Members::Nothing | Members::AtFault => false,
    }
}

fn kept_shares(
    kept: &IndexMap<u32, NameTable>,
    at: u32,
    others: &NameTable,
    without: &NameTable,
) -> bool
    ensures { result ≡ common.shares (visible.kept_at kept.now.entries at) others.now without.now }
{
    match kept.get(&at) {
        None => false,
        Some(names) => names.shares(others, without),
    }
}

fn scope_shares(
    kept: &IndexMap<u32, NameTable>,
    levels: &[OpenScope],
    others: &NameTable,
    without: &NameTable,
) -> bool
    ensures { result ≡ common.shares_scope kept.now.entries others.now without.now (reverse (map level_of levels.now)) }
{
    let mut i = levels.len();
    while 0 < i {
        i -= 1;
        let level = &levels[i];
        if level_shares(kept, level, others, without) {
            return true;
        }
        if !is_further(level.form) {
            return false;
        }
    }
    false
}

impl Table {
    pub fn new(alloc: Global) -> Table
        ensures { result ≡ spec.start }
    {
        Table {
            levels: Vec::new(alloc),
            kept: IndexMap::new(alloc),
            brought: IndexMap::new(alloc),
        }
    }

    pub fn open(&mut self, alloc: Global, form: ScopeForm) -> Result<(), AllocError>
        ensures { OnOk result (self.new ≡ spec.after_one self.old (Open form)) }
    {
        self.levels.push(OpenScope {
            form,
            names: NameTable::new(alloc),
            within: Members::Nothing,
        })?;
        Ok(())
    }

    pub fn close(&mut self)
        ensures { self.new ≡ spec.after_one self.old Close }
    {
        let _closed = self.levels.pop();
    }

    /// Closes the innermost scope, and keeps its names for a place.
    pub fn keep(&mut self, alloc: Global, at: u32) -> Result<(), AllocError>
        ensures { OnOk result (self.new ≡ spec.keep_at self.old at) }
    {
        let names = take_innermost(&mut self.levels, alloc);
        self.kept.insert(at, names)?;
        Ok(())
    }

    /// Makes members belong to the innermost scope too.
    pub fn join(&mut self, members: Members) -> Result<(), AllocError>
        ensures { OnOk result (self.new ≡ spec.join_at self.old members) }
    {
        match self.levels.pop() {
            Some(level) => {
                self.levels.push(within(level, members))?;
                Ok(())
            }
            None => Ok(()),
        }
    }

    /// Declares a name in the innermost scope.
    pub fn declare(&mut self, alloc: Global, word: &[u8], d: Declared) -> Result<(), AllocError>
        ensures { OnOk result (self.new ≡ spec.declare_word self.old word.now d) }
    {
        match self.levels.pop() {
            Some(level) => {
                self.levels.push(with_name(alloc, level, word, d)?)?;
                Ok(())
            }
            None => Ok(()),
        }
    }

    /// Notes what stands there brings.
    pub fn bring(&mut self, at: u32, members: Members) -> Result<(), AllocError>
        ensures { OnOk result (self.new ≡ spec.bring_at self.old at members) }
    {
        self.brought.insert(at, members)?;
        Ok(())
    }

    /// What a name is declared as in the innermost scope so far.
    pub fn in_scope(&self, word: &[u8]) -> Option<Declared>
        ensures { result ≡ visible.in_scope self.now word.now }
    {
        find_in_scope(&self.kept, self.levels.as_slice(), word)
    }

    /// What a name means.
    pub fn meaning(&self, word: &[u8]) -> Option<Declared>
        ensures { result ≡ visible.meaning self.now word.now }
    {
        find_meaning(&self.kept, self.levels.as_slice(), word)
    }

    /// What a name means among members.
    pub fn member(&self, members: Members, word: &[u8]) -> Option<Declared>
        ensures { result ≡ visible.member self.now members word.now }
    {
        in_members(&self.kept, members, word)
    }

    /// Whether some name of the innermost scope is among members, and is not left out.
    pub fn shares(&self, members: Members, without: &NameTable) -> bool
        ensures { result ≡ common.shares_scope self.now.kept (visible.member_names self.now.kept members) without.now self.now.levels }
    {
        match members {
            Members::KeptAt(at) => self.shares_kept(at, without),
            Members::Nothing | Members::AtFault => false,
        }
    }

    fn shares_kept(&self, at: u32, without: &NameTable) -> bool
        ensures { result ≡ common.shares_scope self.now.kept (visible.kept_at self.now.kept at) without.now self.now.levels }
    {
        match self.kept.get(&at) {
            None => false,
            Some(others) => scope_shares(&self.kept, self.levels.as_slice(), others, without),
        }
    }

    /// What was noted there.
    pub fn brought_at(&self, at: u32) -> Members
        ensures { result ≡ visible.brought_at self.now at }
    {
        match self.brought.get(&at) {
            None => Members::Nothing,
            Some(members) => *members,
        }
    }

    /// What is noted where these members are kept.
    pub fn brought_by(&self, members: Members) -> Members
        ensures { result ≡ visible.brought_by self.now members }
    {
        match members {
            Members::KeptAt(at) => self.brought_at(at),
            Members::Nothing => Members::Nothing,
            Members::AtFault => Members::AtFault,
        }
    }
}

/// Closes the innermost scope, and gives its names.
fn take_innermost(levels: &mut Vec<OpenScope>, alloc: Global) -> NameTable
    ensures names { result ≡ spec.names_of_top (reverse (map level_of levels.old.items)) }
    ensures rest { reverse (map level_of levels.new.items) ≡ spec.below (reverse (map level_of levels.old.items)) }
{
    match levels.pop() {
        Some(level) => names_of(level),
        None => NameTable::new(alloc),
    }
}

fn names_of(level: OpenScope) -> NameTable
    ensures { result ≡ level.names }
{
    level.names
}

fn within(level: OpenScope, members: Members) -> OpenScope
    ensures { level_of result ≡ spec.join_level members (level_of level) }
{
    OpenScope {
        form: level.form,
        names: level.names,
        within: members,
    }
}

fn with_name(
    alloc: Global,
    level: OpenScope,
    word: &[u8],
    d: Declared,
) -> Result<OpenScope, AllocError>
    ensures { IfOk result (λ more. level_of more ≡ spec.declare_level word.now d (level_of level)) }
{
    let OpenScope {
        form,
        mut names,
        within,
    } = level;
    names.declare(alloc, word, d)?;
    Ok(OpenScope {
        form,
        names,
        within,
    })
}
