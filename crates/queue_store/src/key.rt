//! Interaction points as keys of a table that are looked up without a copy.

ghost use Rattle.std.specs.Prelude.{◌≡◌, ◌++◌, if◌then◌else◌, Some, None, true, false};
ghost use Rattle.std.specs.Hash as fed;
ghost use Rattle.std.specs.Cmp.Rules.{comparing, hashing};
ghost use Rattle.std.specs.Option.{option_copied};
ghost use Rattle.std.proofs.Common.{rules};
ghost use Rattle.queue_store.specs.Keys.{same_key};

use estelle_tree::{IpAddr, Path};
use std::hash::{Hash, Hasher};
use std::marker::Model;

enum Held<'a> {
    Kept(IpAddr),
    Asked(&'a Path, u32),
}

impl Drop for Held<'_> {
    fn drop(self) {
        match self {
            Held::Kept(_) => {}
            Held::Asked(_, _) => {}
        }
    }
}

/// A key of a table keeps its interaction point; one that is asked for borrows its path.
pub(crate) struct Key<'a> {
    held: Held<'a>,
}

impl Drop for Key<'_> {
    fn drop(self) {
        let Key { held: _ } = self;
    }
}

impl<'a> Model for Key<'a> {
    ghost use Rattle.queue_store.specs.Keys.{Keyed, keyed};

    ghost Value = { Keyed };

    ghost view = { λ k. keyed k.held };
}

impl<'a> Key<'a> {
    pub(crate) fn keep(ip: IpAddr) -> Key<'a>
        ensures { result ≡ record { at = ip; kept = true } }
    {
        Key {
            held: Held::Kept(ip),
        }
    }

    pub(crate) fn ask(path: &'a Path, ip: u32) -> Key<'a>
        ensures { result ≡ record { at = record { path = path.now; ip = ip }; kept = false } }
    {
        Key {
            held: Held::Asked(path, ip),
        }
    }

    pub(crate) fn path(&self) -> &Path
        ensures { result.now ≡ self.now.at.path }
    {
        match &self.held {
            Held::Kept(ip) => &ip.path,
            Held::Asked(path, _) => *path,
        }
    }

    pub(crate) fn number(&self) -> u32
        ensures { result ≡ self.now.at.ip }
    {
        match &self.held {
            Held::Kept(ip) => ip.ip,
            Held::Asked(_, ip) => *ip,
        }
    }

    /// The interaction point, if the key keeps it.
    pub(crate) fn kept(&self) -> Option<&IpAddr>
        ensures { option_copied result ≡ (if self.now.kept then Some self.now.at else None) }
    {
        match &self.held {
            Held::Kept(ip) => Some(ip),
            Held::Asked(_, _) => None,
        }
    }
}

impl<'a> PartialEq for Key<'a> {
    ghost eq = { same_key };

    ghost laws = { Prim.search (comparing, rules) };

    fn eq(&self, other: &Key<'a>) -> bool {
        self.path().items() == other.path().items() && self.number() == other.number()
    }
}

impl<'a> Eq for Key<'a> {
    ghost laws = { Prim.search (comparing, rules) };
}

impl<'a> Hash for Key<'a> {
    ghost hash_input = { λ k. fed.slice fed.u64 k.at.path ++ fed.u32 k.at.ip };

    ghost respects_eq = { Prim.search (hashing, rules) };

    fn hash<H: Hasher>(&self, state: &mut H) {
        self.path().items().hash(state);
        self.number().hash(state);
    }
}
