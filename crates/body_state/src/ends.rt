//! The ends of links: whether a link is one of an interaction point, and which links it has.

ghost use Rattle.std.specs.Prelude.{◌≡◌};
ghost use Rattle.std.specs.Option.{option_copied};
ghost use Rattle.std.specs.Str.{bytes_eq};
ghost use Rattle.estelle_tree.specs.Links as spec;
ghost use Rattle.estelle_model.specs.Actions as actions;

use estelle_tree::{IpAddr, Link, LinkKind, Path};

pub fn is_same_path(a: &Path, b: &Path) -> bool
    ensures { result ≡ bytes_eq a.now b.now }
{
    a.items() == b.items()
}

fn is_same_ip(a: &IpAddr, b: &IpAddr) -> bool
    ensures { result ≡ spec.same_ip a.now b.now }
{
    is_same_path(&a.path, &b.path) && a.ip == b.ip
}

fn is_connection(kind: LinkKind) -> bool
    ensures { result ≡ spec.is_connection kind }
{
    match kind {
        LinkKind::Connection => true,
        LinkKind::Attachment => false,
    }
}

/// Whether a link is a connection of the interaction point.
pub fn joins(a: &IpAddr, link: &Link) -> bool
    ensures { result ≡ spec.joins a.now link.now }
{
    is_connection(link.kind) && (is_same_ip(a, &link.first) || is_same_ip(a, &link.second))
}

/// Whether a link is an attachment of which the interaction point is the upper end.
pub fn is_upper_of(a: &IpAddr, link: &Link) -> bool
    ensures { result ≡ spec.is_upper_of a.now link.now }
{
    !is_connection(link.kind) && is_same_ip(a, &link.first)
}

/// Whether a link is an attachment of which the interaction point is the lower end.
fn is_lower_of(a: &IpAddr, link: &Link) -> bool
    ensures { result ≡ spec.is_lower_of a.now link.now }
{
    !is_connection(link.kind) && is_same_ip(a, &link.second)
}

/// Whether an end of a link lies at the instance or below it.
pub fn touches(path: &Path, link: &Link) -> bool
    ensures { result ≡ spec.touches path.now link.now }
{
    path.is_at_or_above(&link.first.path) || path.is_at_or_above(&link.second.path)
}

/// Whether an interaction point is in a connection, or is the lower end of an attachment.
pub fn is_bound(a: &IpAddr, links: &[Link]) -> bool
    ensures { result ≡ actions.is_bound a.now links.now }
{
    links
        .iter()
        .any(|link| joins(a, link) || is_lower_of(a, link))
}

pub fn is_connected(a: &IpAddr, links: &[Link]) -> bool
    ensures { result ≡ actions.is_connected a.now links.now }
{
    links.iter().any(|link| joins(a, link))
}

pub fn is_upper(a: &IpAddr, links: &[Link]) -> bool
    ensures { result ≡ actions.is_upper a.now links.now }
{
    links.iter().any(|link| is_upper_of(a, link))
}

/// The upper end of the attachment of which the interaction point is the lower end.
pub fn above<'l>(links: &'l [Link], a: &IpAddr) -> Option<&'l IpAddr>
    ensures { option_copied result ≡ spec.above links.now a.now }
{
    for link in links {
        if is_lower_of(a, link) {
            return Some(&link.first);
        }
    }
    None
}
