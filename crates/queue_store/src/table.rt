//! The declared interaction points in order, each with a chain of items.

ghost use Rattle.std.specs.Prelude.{◌≡◌, ℕ, ◌+◌, ◌-◌, ◌<◌, ◌≤◌, [], ◌∷◌, ◌++◌, length, count_by, sum_by, slice_get, filter, not, Some, None, MatchOption, IfSome, OnOk, OnErr, nat_eq, IsTrue, true, option_and_then, is_some, if◌then◌else◌};
ghost use Rattle.std.specs.Option.{option_map, option_copied};
ghost use Rattle.indexmap.specs.IndexMap.{index_map_len, with_value_at, spare as room_of};
ghost use Rattle.estelle_tree.specs.declared.link.IpAddr.{IpAddr};
ghost use Rattle.queue_store.specs.Rows.{ip_at, is_row_of, on_row, put_last, first_taken, lies_inside};
ghost use Rattle.estelle_tree.specs.Paths.{is_inside};
ghost use Rattle.queue_store.specs.Chains.{load_in, next_in, loaded_at};

use crate::chain::{Chain, Node, link_last, unlink_first};
use crate::key::Key;
use estelle_tree::{IpAddr, Path};
use indexmap::IndexMap;
use slab::Slab;
use std::alloc::{AllocError, Global};
use std::marker::Model;

/// What a table keeps of a declared interaction point.
#[derive(Clone, Copy)]
pub(crate) struct Place {
    common: bool,
    home: u32,
    chain: Chain,
}

/// Rows by interaction point, and their items in one slab.
#[derive(Drop)]
pub(crate) struct Table<T> {
    places: IndexMap<Key<'static>, Place>,
    nodes: Slab<Node<T>>,
}

impl<T> Model for Table<T> {
    ghost use Rattle.std.specs.Prelude.{◌-◌};
    ghost use Rattle.slab.specs.Slab.{slab_len};
    ghost use Rattle.indexmap.specs.IndexMap.{spare, IsUnique};
    ghost use Rattle.queue_store.specs.Keys.{same_key};
    ghost use Rattle.queue_store.specs.Rows.{Rows};

    ghost Value = { Rows T };

    ghost use Rattle.queue_store.specs.Chains.{Sound, load_in, next_in};
    ghost use Rattle.queue_store.specs.Table.{rows_of, chains_of, AllKept};

    ghost view = { λ t. record {
      rows = rows_of (load_in t.nodes) (next_in t.nodes) t.places.entries;
      spare = t.nodes.capacity - slab_len t.nodes;
      room = spare t.places;
    } };

    ghost invariant = { λ t. Sound (load_in t.nodes) (next_in t.nodes) (slab_len t.nodes) (chains_of t.places.entries)
        × AllKept t.places.entries × IsUnique same_key t.places };
}

fn place_at(places: &IndexMap<Key<'static>, Place>, at: usize) -> Place
    requires { at < index_map_len places.now }
    ensures { option_map (λ e. e.1) (slice_get places.now.entries at) ≡ Some result }
{
    match places.get_index(at) {
        Some((_, place)) => *place,
        None => unreachable!(),
    }
}

fn put_place(places: &mut IndexMap<Key<'static>, Place>, at: usize, place: Place)
    requires { at < index_map_len places.old }
    ensures { places.new ≡ with_value_at places.old at place }
{
    match places.get_index_mut(at) {
        Some(kept) => *kept = place,
        None => unreachable!(),
    }
}

/// Whether the item in a slot waits at this number, and the slot after it.
fn step_at<T>(nodes: &Slab<Node<T>>, slot: usize, ip: u32) -> (bool, usize)
    ensures found { result.0 ≡ loaded_at ip (load_in nodes.now slot) }
    ensures next { result.1 ≡ next_in nodes.now slot }
{
    match nodes.get(slot) {
        Some(node) => (node.ip == ip, node.next),
        None => (false, 0),
    }
}

impl<T> Table<T> {
    pub(crate) fn none(alloc: Global) -> Table<T>
        ensures { result.rows ≡ [] }
    {
        Table {
            places: IndexMap::new(alloc),
            nodes: Slab::new(alloc),
        }
    }

    pub(crate) fn reserve(&mut self, items: usize, ips: usize) -> Result<(), AllocError>
        ensures rows { self.new.rows ≡ self.old.rows }
        ensures spare { self.old.spare ≤ self.new.spare }
        ensures room { self.old.room ≤ self.new.room }
        ensures items { OnOk result (items ≤ self.new.spare) }
        ensures ips { OnOk result (ips ≤ self.new.room) }
    {
        self.nodes.reserve(items)?;
        self.places.reserve(ips)
    }

    /// The number of the row of an interaction point.
    pub(crate) fn find(&self, path: &Path, ip: u32) -> Option<usize>
        ensures found { MatchOption result (count_by (is_row_of (ip_at path.now ip)) self.now.rows ≡ 0)
            (λ i. option_map (is_row_of (ip_at path.now ip)) (slice_get self.now.rows i) ≡ Some true) }
        ensures unique { (a : IpAddr) → count_by (is_row_of a) self.now.rows ≤ 1 }
    {
        self.places.get_index_of(&Key::ask(path, ip))
    }

    /// How many rows there are.
    pub(crate) fn rows(&self) -> usize
        ensures { result ≡ length self.now.rows }
    {
        self.places.len()
    }

    /// How many items there are in all.
    pub(crate) fn total(&self) -> usize
        ensures { result ≡ sum_by (λ d. length d.items) self.now.rows }
    {
        self.nodes.len()
    }

    /// The interaction point of a row.
    pub(crate) fn addr(&self, at: usize) -> &IpAddr
        requires { at < length self.now.rows }
        ensures { option_map (λ d. d.at) (slice_get self.now.rows at) ≡ Some result.now }
    {
        match self.places.get_index(at) {
            Some((key, _)) => match key.kept() {
                Some(ip) => ip,
                None => unreachable!(),
            },
            None => unreachable!(),
        }
    }

    /// Whether the queue of a row is a common one.
    pub(crate) fn is_common(&self, at: usize) -> bool
        requires { at < length self.now.rows }
        ensures { option_map (λ d. d.common) (slice_get self.now.rows at) ≡ Some result }
    {
        place_at(&self.places, at).common
    }

    /// The number of the interaction point whose row has the queue's items.
    pub(crate) fn home(&self, at: usize) -> u32
        requires { at < length self.now.rows }
        ensures { option_map (λ d. d.home) (slice_get self.now.rows at) ≡ Some result }
    {
        place_at(&self.places, at).home
    }

    /// How many items a row has.
    pub(crate) fn len(&self, at: usize) -> usize
        requires { at < length self.now.rows }
        ensures { option_map (λ d. length d.items) (slice_get self.now.rows at) ≡ Some result }
    {
        place_at(&self.places, at).chain.len
    }

    /// One more row, without items.
    pub(crate) fn add(&mut self, ip: IpAddr, common: bool, home: u32)
        requires room { 1 ≤ self.old.room }
        requires fresh { count_by (is_row_of ip) self.old.rows ≡ 0 }
        ensures rows { self.new.rows ≡ self.old.rows ++ record { at = ip; common = common; home = home; items = [] } ∷ [] }
        ensures spare { self.new.spare ≡ self.old.spare }
        ensures room { self.old.room ≤ self.new.room + 1 }
    {
        let chain = Chain {
            first: 0,
            last: 0,
            len: 0,
        };
        let place = Place {
            common,
            home,
            chain,
        };
        // There is room, so that this does not fail.
        let _ = self.places.insert(Key::keep(ip), place);
    }

    /// Puts an item at the end of a row.
    pub(crate) fn append(&mut self, at: usize, ip: u32, item: T)
        requires row { at < length self.old.rows }
        requires spare { 1 ≤ self.old.spare }
        ensures rows { self.new.rows ≡ on_row at (put_last ip item) self.old.rows }
        ensures spare { self.new.spare + 1 ≡ self.old.spare }
        ensures room { self.new.room ≡ self.old.room }
    {
        let place = place_at(&self.places, at);
        let chain = link_last(&mut self.nodes, place.chain, ip, item);
        let place = Place {
            common: place.common,
            home: place.home,
            chain,
        };
        put_place(&mut self.places, at, place);
    }

    /// Takes the first item of a row out.
    pub(crate) fn pop(&mut self, at: usize) -> Option<(u32, T)>
        requires { at < length self.old.rows }
        ensures item { result ≡ option_and_then (λ d. slice_get d.items 0) (slice_get self.old.rows at) }
        ensures rows { self.new.rows ≡ on_row at first_taken self.old.rows }
        ensures spare { self.new.spare ≡ self.old.spare + (if is_some result then 1 else 0) }
        ensures room { self.new.room ≡ self.old.room }
    {
        let place = place_at(&self.places, at);
        if place.chain.len == 0 {
            return None;
        }
        let (chain, ip, item) = unlink_first(&mut self.nodes, place.chain);
        let place = Place {
            common: place.common,
            home: place.home,
            chain,
        };
        put_place(&mut self.places, at, place);
        Some((ip, item))
    }

    /// The first item of a row.
    pub(crate) fn first(&self, at: usize) -> Option<(u32, &T)>
        requires { at < length self.now.rows }
        ensures { option_map (λ p. (p.0, p.1.now)) result ≡ option_and_then (λ d. slice_get d.items 0) (slice_get self.now.rows at) }
    {
        let place = place_at(&self.places, at);
        if place.chain.len == 0 {
            return None;
        }
        match self.nodes.get(place.chain.first) {
            Some(node) => Some((node.ip, &node.item)),
            None => unreachable!(),
        }
    }

    /// How many items of a row wait at this number.
    pub(crate) fn count(&self, at: usize, ip: u32) -> usize
        requires { at < length self.now.rows }
        ensures { option_map (λ d. count_by (λ x. nat_eq x.0 ip) d.items) (slice_get self.now.rows at) ≡ Some result }
    {
        let chain = place_at(&self.places, at).chain;
        let mut slot = chain.first;
        let mut count = 0;
        for i in 0..chain.len {
            let (found, next) = step_at(&self.nodes, slot, ip);
            if found {
                count += 1;
            }
            slot = next;
        }
        count
    }

    /// Takes out the rows of an instance and of those below it. They have no items.
    pub(crate) fn keep_outside(&mut self, path: &Path)
        requires { sum_by (λ d. length d.items) (filter (lies_inside path.now) self.old.rows) ≡ 0 }
        ensures rows { self.new.rows ≡ filter (λ d. not (lies_inside path.now d)) self.old.rows }
        ensures spare { self.new.spare ≡ self.old.spare }
        ensures room { self.old.room ≤ self.new.room }
    {
        self.places.retain(
            |key: &Key, _place: &mut Place| -> bool
                ensures { (result ≡ not (is_inside path.entry.now key.now.at.path)) × (_place.new ≡ _place.old) }
            { !path.is_at_or_above(key.path()) },
        );
    }
}
