//! Interaction points: which may be linked, and what each may send (ISO/IEC 9074: channels, connect, attach).

ghost use Rattle.std.specs.Prelude.{◌≡◌, slice_get, Some};
ghost use Rattle.std.specs.Option.{option_copied};
ghost use Rattle.estelle_model.specs.InteractionPoints as spec;
ghost use Rattle.estelle_model.specs.declared.meaning.Meaning.TheVariants.{Interaction};
ghost use Rattle.estelle_model.specs.Actions.{is_sent_at};

use body_state::{ModuleBodies, Walk, is_same_path};
use estelle_model::{InteractionKind, InteractionPoint, Role, Senders};
use estelle_tree::{IpAddr, Path, Word};

/// An interaction point as it is declared, if it is there.
pub(crate) fn point<'b>(
    walk: &Walk,
    bodies: &'b ModuleBodies<'_>,
    a: &IpAddr,
) -> Option<&'b InteractionPoint>
    ensures { option_copied result ≡ spec.point bodies.now walk.now.instances a.now }
{
    match walk.instance(&a.path) {
        Some(part) => nth(bodies.ips(part.body), a.ip),
        None => None,
    }
}

fn nth(points: &[InteractionPoint], number: u32) -> Option<&InteractionPoint>
    ensures { option_copied result ≡ slice_get points.now number }
{
    points.get(number as usize)
}

fn is_same_role(a: Role, b: Role) -> bool
    ensures { result ≡ spec.same_role a b }
{
    match (a, b) {
        (Role::First, Role::First) => true,
        (Role::Second, Role::Second) => true,
        (Role::First, Role::Second) => false,
        (Role::Second, Role::First) => false,
    }
}

fn may_send(role: Role, by: Senders) -> bool
    ensures { result ≡ spec.may_send role by }
{
    match role {
        Role::First => by.first,
        Role::Second => by.second,
    }
}

/// Whether the role of an interaction point may send an interaction.
fn sends(point: &InteractionPoint, kind: &InteractionKind) -> bool
    ensures { result ≡ spec.sends point.now kind.now }
{
    point.channel == kind.channel && may_send(point.role, kind.senders)
}

/// Whether an interaction is declared with this word, and may be sent at the interaction point.
pub(crate) fn is_sent_at(
    point: Option<&InteractionPoint>,
    word: &Word,
    kind: &InteractionKind,
) -> bool
    ensures { result ≡ is_sent_at (option_copied point.entry) word.now (Interaction kind.now) }
{
    match point {
        Some(point) => kind.word.items() == word.items() && sends(point, kind),
        None => false,
    }
}

fn is_connectable(here: &Path, a: &IpAddr, point: &InteractionPoint) -> bool
    ensures { result ≡ spec.is_connectable here.now a.now point.now }
{
    if is_same_path(&a.path, here) {
        !point.external
    } else {
        point.external
    }
}

/// Whether the instance may connect an interaction point, which is its own internal one or a child's external one.
pub(crate) fn connectable_at(here: &Path, a: &IpAddr, point: Option<&InteractionPoint>) -> bool
    ensures { result ≡ spec.connectable_at here.now a.now (option_copied point.entry) }
{
    match point {
        None => false,
        Some(point) => is_connectable(here, a, point),
    }
}

/// Whether they are of one channel and of opposite roles, and not both internal.
fn join(a: &InteractionPoint, b: &InteractionPoint) -> bool
    ensures { result ≡ spec.may_join (Some a.now) (Some b.now) }
{
    a.channel == b.channel && !is_same_role(a.role, b.role) && (a.external || b.external)
}

fn may_join(a: Option<&InteractionPoint>, b: Option<&InteractionPoint>) -> bool
    ensures { result ≡ spec.may_join (option_copied a.entry) (option_copied b.entry) }
{
    match (a, b) {
        (Some(a), Some(b)) => join(a, b),
        _ => false,
    }
}

/// Whether the instance may connect them.
pub(crate) fn may_connect(
    walk: &Walk,
    bodies: &ModuleBodies,
    here: &Path,
    a: &IpAddr,
    b: &IpAddr,
) -> bool
    ensures { result ≡ spec.may_connect bodies.now walk.now.instances here.now a.now b.now }
{
    let first = point(walk, bodies, a);
    let second = point(walk, bodies, b);
    may_join(first, second) && connectable_at(here, a, first) && connectable_at(here, b, second)
}

/// Whether they are external, of one channel and of one role.
fn attach(upper: &InteractionPoint, lower: &InteractionPoint) -> bool
    ensures { result ≡ spec.may_attach_points (Some upper.now) (Some lower.now) }
{
    upper.channel == lower.channel
        && is_same_role(upper.role, lower.role)
        && upper.external
        && lower.external
}

/// Whether an instance may attach its interaction point to its child's.
pub(crate) fn may_attach(walk: &Walk, bodies: &ModuleBodies, upper: &IpAddr, lower: &IpAddr) -> bool
    ensures { result ≡ spec.may_attach bodies.now walk.now.instances upper.now lower.now }
{
    match (point(walk, bodies, upper), point(walk, bodies, lower)) {
        (Some(upper), Some(lower)) => attach(upper, lower),
        _ => false,
    }
}

pub(crate) fn external_at(point: Option<&InteractionPoint>) -> bool
    ensures { result ≡ spec.external_at (option_copied point.entry) }
{
    match point {
        None => false,
        Some(point) => point.external,
    }
}
