//! Links in order.

ghost use Rattle.std.specs.Prelude.{◌≡◌, ◌≢◌, ℕ, ◌+◌, ◌≤◌, ◌||◌, ◌++◌, ◌∷◌, [], not, is_some, filter, length, Some, None, IfSome, false, IsOk, IsErr, IfOk, OnOk, OnErr, IsTrue, ◌↔◌};
ghost use Rattle.std.specs.Option.{option_copied};
ghost use Rattle.estelle_tree.specs.Links.{joins, is_upper_of, touches, connection, attachment, peer, above, below, bottom, route};
ghost use Rattle.link_ops.specs.Linked.{is_bound, AreProper, IsChild};
ghost use Rattle.link_ops.specs.Pairs as spec;

use crate::asked::LinkTest;
use crate::pairs::Pairing;
use crate::points::{Points, Role};
use crate::{pairs, points};
use estelle_tree::{IpAddr, Link, LinkKind, Path};
use std::alloc::{AllocError, Global};
use std::marker::Model;

/// An interaction point has a link that rules another one out.
#[derive(Clone, Copy, Debug, PartialEq, Eq)]
pub struct LinkTaken;

/// There is no such link.
#[derive(Clone, Copy, Debug, PartialEq, Eq)]
pub struct LinkAbsent;

/// Connections and attachments in the order in which they were made, and for how many more there is memory.
///
/// A look-up takes constant time for a path of a given length, and a way the time of a look-up and of its steps.
pub struct Links {
    points: Points,
    /// In order, with gaps where links were removed.
    pairs: Vec<Option<Pairing>>,
    count: usize,
    spare: usize,
}

impl Drop for Links {
    fn drop(self) {
        let Links {
            points: _,
            pairs: _,
            count: _,
            spare: _,
        } = self;
    }
}

impl Model for Links {
    ghost use Rattle.link_ops.specs.Linked.{LinkList};

    ghost Value = { LinkList };

    ghost use Rattle.link_ops.specs.Kept.{seen_as, Kept};

    ghost view = { seen_as };

    ghost invariant = { Kept };
}

impl Links {
    /// No links.
    pub fn none(alloc: Global) -> Links
        ensures { result ≡ record { links = []; spare = 0 } }
    {
        Links {
            points: points::none(alloc),
            pairs: Vec::new(alloc),
            count: 0,
            spare: 0,
        }
    }

    /// The other end of the connection of an interaction point. It takes no memory.
    pub fn peer(&self, ip: &IpAddr) -> Option<&IpAddr>
        ensures point { option_copied result ≡ peer self.now.links ip.now }
        ensures proper { AreProper self.now.links }
    {
        pairs::far(&self.points, &self.pairs, Role::Joined, ip)
    }

    /// The upper end of the attachment of which this is the lower end. It takes no memory.
    pub fn above(&self, ip: &IpAddr) -> Option<&IpAddr>
        ensures point { option_copied result ≡ above self.now.links ip.now }
        ensures proper { AreProper self.now.links }
    {
        pairs::far(&self.points, &self.pairs, Role::Lower, ip)
    }

    /// The lower end of the attachment of which this is the upper end. It takes no memory.
    pub fn below(&self, ip: &IpAddr) -> Option<&IpAddr>
        ensures point { option_copied result ≡ below self.now.links ip.now }
        ensures proper { AreProper self.now.links }
    {
        pairs::far(&self.points, &self.pairs, Role::Upper, ip)
    }

    /// The last point of the way down. It takes no memory.
    pub fn last_below<'a>(&'a self, ip: &'a IpAddr) -> &'a IpAddr
        ensures point { result.now ≡ bottom self.now.links ip.now }
        // The way does not lead on.
        ensures end { below self.now.links result.now ≡ None }
    {
        pairs::last(&self.points, &self.pairs, Role::Upper, self.count, ip)
    }

    /// Where an output comes to: up the attachments, over the connection, and down the attachments. It takes no
    /// memory.
    pub fn route(&self, from: &IpAddr) -> Option<&IpAddr>
        ensures point { option_copied result ≡ route self.now.links from.now }
        ensures end { IfSome result (λ a. below self.now.links a.now ≡ None) }
    {
        pairs::route(&self.points, &self.pairs, self.count, from)
    }

    fn is_bound(&self, ip: &IpAddr) -> bool
        ensures { result ≡ is_bound self.now.links ip.now }
    {
        self.peer(ip).is_some() || self.above(ip).is_some()
    }

    fn add(&mut self, kind: LinkKind, first: IpAddr, second: IpAddr)
        requires room { 1 ≤ self.old.spare }
        requires may { spec.MayLink self.old.links kind first second }
        ensures links { self.new.links ≡ self.old.links ++ (record { kind = kind; first = first; second = second }) ∷ [] }
        ensures spare { self.new.spare + 1 ≡ self.old.spare }
    {
        pairs::link(&mut self.points, &mut self.pairs, kind, first, second);
        self.count += 1;
        self.spare -= 1;
    }

    /// Connects two interaction points. It takes no memory.
    pub fn connect(&mut self, a: IpAddr, b: IpAddr) -> Result<(), LinkTaken>
        requires room { 1 ≤ self.old.spare }
        requires differ { a ≢ b }
        // Exactly where one of the two is in a connection or is a lower end.
        ensures taken { IsErr result ↔ IsTrue (is_bound self.old.links a || is_bound self.old.links b) }
        ensures links { OnOk result (self.new.links ≡ self.old.links ++ connection a b ∷ []) }
        ensures spare { self.old.spare ≤ self.new.spare + 1 }
        ensures unchanged { OnErr result (self.new ≡ self.old) }
    {
        if self.is_bound(&a) || self.is_bound(&b) {
            return Err(LinkTaken);
        }
        self.add(LinkKind::Connection, a, b);
        Ok(())
    }

    /// Attaches an interaction point to one of a child. It takes no memory.
    pub fn attach(&mut self, upper: IpAddr, lower: IpAddr) -> Result<(), LinkTaken>
        requires room { 1 ≤ self.old.spare }
        requires child { IsChild upper.path lower.path }
        // Exactly where the upper one is an upper end, or the lower one is a lower end or in a connection.
        ensures taken { IsErr result ↔ IsTrue (is_some (below self.old.links upper) || is_bound self.old.links lower) }
        ensures links { OnOk result (self.new.links ≡ self.old.links ++ attachment upper lower ∷ []) }
        ensures spare { self.old.spare ≤ self.new.spare + 1 }
        ensures unchanged { OnErr result (self.new ≡ self.old) }
    {
        if self.below(&upper).is_some() || self.is_bound(&lower) {
            return Err(LinkTaken);
        }
        self.add(LinkKind::Attachment, upper, lower);
        Ok(())
    }

    /// Removes the link in which an interaction point has a role, and says whether there was one.
    fn remove(&mut self, role: Role, ip: &IpAddr) -> bool
        ensures found { result ≡ is_some (spec.way role self.old.links ip.now) }
        ensures links { self.new ≡ record self.old { links = filter (λ l. not (spec.has_role role ip.now l)) self.old.links } }
        ensures absent { result ≡ false → self.new ≡ self.old }
    {
        match pairs::entry(&self.points, &self.pairs, role, ip) {
            None => false,
            Some((at, pair)) => {
                pairs::clear(&mut self.points, &mut self.pairs, at, pair);
                self.count -= 1;
                true
            }
        }
    }

    /// Removes the connection of an interaction point. It takes no memory.
    pub fn disconnect(&mut self, a: &IpAddr) -> Result<(), LinkAbsent>
        ensures absent { IsErr result ↔ (peer self.old.links a.now ≡ None) }
        ensures links { OnOk result (self.new.links ≡ filter (λ l. not (joins a.now l)) self.old.links) }
        ensures spare { self.old.spare ≤ self.new.spare }
        ensures unchanged { OnErr result (self.new ≡ self.old) }
    {
        if self.remove(Role::Joined, a) {
            Ok(())
        } else {
            Err(LinkAbsent)
        }
    }

    /// Removes the attachment of which an interaction point is the upper end. It takes no memory.
    pub fn detach(&mut self, upper: &IpAddr) -> Result<(), LinkAbsent>
        ensures absent { IsErr result ↔ (below self.old.links upper.now ≡ None) }
        ensures links { OnOk result (self.new.links ≡ filter (λ l. not (is_upper_of upper.now l)) self.old.links) }
        ensures spare { self.old.spare ≤ self.new.spare }
        ensures unchanged { OnErr result (self.new ≡ self.old) }
    {
        if self.remove(Role::Upper, upper) {
            Ok(())
        } else {
            Err(LinkAbsent)
        }
    }

    /// Copies of the links that pass, in order. It takes the time of all links, and memory for the copies alone.
    pub fn copies_of<T: LinkTest>(&self, alloc: Global, test: &T) -> Result<Vec<Link>, AllocError>
        ensures { IfOk result (λ links. links.items ≡ filter (T.passes test.now) self.now.links) }
    {
        pairs::copies_of(alloc, &self.points, &self.pairs, test)
    }

    /// Removes every link with an end at the instance or below it. It takes no memory.
    pub fn forget(&mut self, path: &Path)
        ensures links { self.new.links ≡ filter (λ l. not (touches path.now l)) self.old.links }
        ensures spare { self.old.spare ≤ self.new.spare }
    {
        self.count -= pairs::forget(&mut self.points, &mut self.pairs, path);
    }

    /// Makes room for so many more links.
    pub fn reserve(&mut self, additional: usize) -> Result<(), AllocError>
        ensures links { self.new.links ≡ self.old.links }
        ensures room { OnOk result (additional ≤ self.new.spare) }
        ensures spare { self.old.spare ≤ self.new.spare }
        ensures unchanged { OnErr result (self.new ≡ self.old) }
    {
        if additional <= self.spare {
            return Ok(());
        }
        pairs::reserve(&mut self.points, &mut self.pairs, additional)?;
        self.spare = additional;
        Ok(())
    }
}
