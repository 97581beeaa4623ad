//! The links that a block reads and changes.

ghost use Rattle.std.specs.Prelude.{◌≡◌, [], ◌∷◌, ◌++◌, not, filter, IfOk, OnOk, OnErr, if◌then◌else◌};
ghost use Rattle.estelle_tree.specs.Links as spec;
ghost use Rattle.estelle_model.specs.Effects.{links_after};
ghost use Rattle.body_state.specs.Entries.{effect_of};

use crate::ends::{is_upper_of, joins, touches};
use crate::log::LogEntry;
use body_values::{copy_address, copy_links, into_vec};
use estelle_tree::{IpAddr, Items, Link, LinkKind, Path};
use std::alloc::{AllocError, Global};
use std::marker::Model;

/// The links of an image. They are lent, and copied once one of them changes.
#[derive(Drop)]
pub struct LinkList<'a> {
    lent: &'a [Link],
    /// In place of the lent links, once one has changed.
    own: Vec<Link>,
    is_own: bool,
}

impl<'a> Model for LinkList<'a> {
    ghost use Rattle.std.specs.Prelude.{List};
    ghost use Rattle.std.specs.Coded.{codes};
    ghost use Rattle.estelle_tree.specs.declared.link.Link.{Link};

    ghost Value = { List Link };

    ghost coded = { Prim.hlevel (codes) };

    ghost use Rattle.body_state.specs.KeptLinks.{links_kept};

    ghost view = { links_kept };
}

/// Copies the lent links in place of the own ones, unless these are shown.
fn own_links(
    alloc: Global,
    lent: &[Link],
    own: &mut Vec<Link>,
    is_own: bool,
) -> Result<(), AllocError>
    ensures ok { OnOk result (own.new.items ≡ (if is_own then own.old.items else lent.now)) }
    ensures err { OnErr result (own.new ≡ own.old) }
{
    if !is_own {
        *own = copy_links(alloc, lent)?;
    }
    Ok(())
}

/// The links that are shown: the own ones, or copies of the lent ones.
fn kept_links(
    alloc: Global,
    lent: &[Link],
    own: Vec<Link>,
    is_own: bool,
) -> Result<Vec<Link>, AllocError>
    ensures { IfOk result (λ links. links.items ≡ (if is_own then own.items else lent.now)) }
{
    if is_own {
        Ok(own)
    } else {
        copy_links(alloc, lent)
    }
}

/// Adds a link.
fn add_link(
    alloc: Global,
    links: &mut Vec<Link>,
    kind: LinkKind,
    first: &IpAddr,
    second: &IpAddr,
) -> Result<(), AllocError>
    ensures { OnOk result (links.new.items ≡ links.old.items ++ record { kind = kind; first = first.now; second = second.now } ∷ []) }
{
    let link = Link {
        kind,
        first: copy_address(alloc, first)?,
        second: copy_address(alloc, second)?,
    };
    match links.push(link) {
        Ok(()) => Ok(()),
        Err(_) => Err(AllocError),
    }
}

fn without_connection(links: &mut Vec<Link>, a: &IpAddr)
    ensures { links.new.items ≡ filter (λ l. not (spec.joins a.now l)) links.old.items }
{
    links.retain(|link| !joins(a, link));
}

fn without_attachment(links: &mut Vec<Link>, upper: &IpAddr)
    ensures { links.new.items ≡ filter (λ l. not (spec.is_upper_of upper.now l)) links.old.items }
{
    links.retain(|link| !is_upper_of(upper, link));
}

fn without_instance(links: &mut Vec<Link>, path: &Path)
    ensures { links.new.items ≡ filter (λ l. not (spec.touches path.now l)) links.old.items }
{
    links.retain(|link| !touches(path, link));
}

/// What an effect does to links.
#[tactic(auto, unfolding(estelle_model::specs::Effects::links_after))]
fn change_links(alloc: Global, links: &mut Vec<Link>, entry: &LogEntry) -> Result<(), AllocError>
    ensures { OnOk result (links.new.items ≡ links_after (effect_of entry.now) links.old.items) }
{
    match entry {
        LogEntry::Connect { first, second } => {
            add_link(alloc, links, LinkKind::Connection, first, second)
        }
        LogEntry::Disconnect { a } => {
            without_connection(links, a);
            Ok(())
        }
        LogEntry::Attach { upper, lower } => {
            add_link(alloc, links, LinkKind::Attachment, upper, lower)
        }
        LogEntry::Detach { upper } => {
            without_attachment(links, upper);
            Ok(())
        }
        LogEntry::Remove { parent, number } => {
            let path = parent.child(alloc, *number)?;
            without_instance(links, &path);
            Ok(())
        }
        LogEntry::Output { .. } => Ok(()),
        LogEntry::Create { .. } => Ok(()),
    }
}

impl<'a> LinkList<'a> {
    pub(crate) fn lent(alloc: Global, links: &'a [Link]) -> LinkList<'a>
        ensures { result ≡ links.now }
    {
        LinkList {
            lent: links,
            own: Vec::new(alloc),
            is_own: false,
        }
    }

    pub(crate) fn owning(alloc: Global, links: Items<Link>) -> Result<LinkList<'a>, AllocError>
        ensures { IfOk result (λ list. list ≡ links) }
    {
        Ok(LinkList {
            lent: &[],
            own: into_vec(alloc, links)?,
            is_own: true,
        })
    }

    pub(crate) fn items(&self) -> &[Link]
        ensures { result.now ≡ self.now }
    {
        if self.is_own { &self.own } else { self.lent }
    }

    /// What an effect does to the links.
    pub(crate) fn make(&mut self, alloc: Global, entry: &LogEntry) -> Result<(), AllocError>
        ensures { OnOk result (self.new ≡ links_after (effect_of entry.now) self.old) }
    {
        own_links(alloc, self.lent, &mut self.own, self.is_own)?;
        self.is_own = true;
        change_links(alloc, &mut self.own, entry)
    }

    /// As the links of an image.
    pub(crate) fn into_items(self, alloc: Global) -> Result<Items<Link>, AllocError>
        ensures { IfOk result (λ links. links ≡ self.entry) }
    {
        let LinkList { lent, own, is_own } = self;
        Ok(Items::from_vec(kept_links(alloc, lent, own, is_own)?))
    }
}
