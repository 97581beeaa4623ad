//! What each effect does to the stores.

ghost use Rattle.std.specs.Prelude.{◌≡◌, ◌≢◌, ◌+◌, ◌<◌, ◌≤◌, ◌||◌, [], ◌∷◌, ◌++◌, not, false, true, length, map as each, reverse, filter, is_some, is_none, vec_capacity, All, IfSome, IsSome, None};
ghost use Rattle.estelle_tree.specs.Paths.{parent_of, last_of};
ghost use Rattle.estelle_tree.specs.Links.{same_ip, joins, is_upper_of, touches, connection, attachment, peer, below, bottom, route};
ghost use Rattle.module_tree.specs.Trees as trees;
ghost use Rattle.queue_store.specs.Queues.{is_declared, moved_all, dropped_below, items_below};
ghost use Rattle.link_ops.specs.Linked.{is_bound, IsChild};
ghost use Rattle.effect_log.specs.Putting.{path_of};
ghost use Rattle.effect_log.specs.Underway.{sent, declared_all, AllFresh, HasGiven};

use crate::disciplines::Disciplines;
use estelle_model::{Interaction, Part};
use estelle_tree::{IpAddr, Items, Path, PathRoom};
use link_ops::Links;
use module_tree::Tree;
use queue_store::Queues;

/// Moves all items out of a list, the first one last.
pub(crate) fn turn<T: Drop>(items: Items<T>, into: &mut Vec<T>)
    requires { length into.old.items + length items ≤ vec_capacity into.old }
    ensures items { into.new.items ≡ into.old.items ++ reverse items }
    ensures capacity { vec_capacity into.new ≡ vec_capacity into.old }
{
    let mut items = items;
    while let Some(item) = items.pop() {
        into.push_reserved(item);
    }
}

/// Notes the path of an instance.
fn note_path(path: &Path, rooms: &mut Vec<PathRoom>, paths: &mut Vec<Path>)
    requires room { 0 < length rooms.old.items }
    requires wide { All (λ room. length path.now ≤ room) rooms.old.items }
    requires paths { length paths.old.items < vec_capacity paths.old }
    ensures rooms { HasGiven rooms.old.items rooms.new.items }
    ensures paths { paths.new.items ≡ paths.old.items ++ path.now ∷ [] }
    ensures capacity { vec_capacity paths.new ≡ vec_capacity paths.old }
{
    match rooms.pop() {
        Some(room) => paths.push_reserved(room.fill(path, path.items().len())),
        None => unreachable!(),
    }
}

/// Puts an interaction at the end of its way. Says whether it is lost, because there is no way.
pub(crate) fn send(
    links: &Links,
    queues: &mut Queues<Interaction>,
    from: &IpAddr,
    item: Interaction,
    rooms: &mut Vec<PathRoom>,
    paths: &mut Vec<Path>,
) -> bool
    requires declared { IfSome (route links.now.links from.now) (λ a. is_declared a queues.old.queues ≡ true) }
    requires wide { IfSome (route links.now.links from.now) (λ a. All (λ room. length a.path ≤ room) rooms.old.items) }
    requires spare { 1 ≤ queues.old.spare }
    requires room { 0 < length rooms.old.items }
    requires paths { length paths.old.items < vec_capacity paths.old }
    ensures lost { result ≡ is_none (route links.now.links from.now) }
    ensures queues { queues.new.queues ≡ sent item (route links.now.links from.now) queues.old.queues }
    ensures spare { queues.old.spare ≤ queues.new.spare + 1 }
    ensures room { queues.new.room ≡ queues.old.room }
    ensures rooms { HasGiven rooms.old.items rooms.new.items }
    ensures paths { paths.new.items ≡ paths.old.items ++ path_of (route links.now.links from.now) }
    ensures capacity { vec_capacity paths.new ≡ vec_capacity paths.old }
{
    match links.route(from) {
        Some(at) => {
            queues.push(at, item);
            note_path(&at.path, rooms, paths);
            false
        }
        None => true,
    }
}

/// Connects two interaction points that are free.
pub(crate) fn connect(links: &mut Links, a: IpAddr, b: IpAddr)
    requires room { 1 ≤ links.old.spare }
    requires differ { a ≢ b }
    requires free { (is_bound links.old.links a || is_bound links.old.links b) ≡ false }
    ensures links { links.new.links ≡ links.old.links ++ connection a b ∷ [] }
    ensures spare { links.old.spare ≤ links.new.spare + 1 }
{
    let _ = links.connect(a, b);
}

/// Disconnects an interaction point that is connected.
pub(crate) fn disconnect(links: &mut Links, a: &IpAddr)
    requires { is_some (peer links.old.links a.now) ≡ true }
    ensures links { links.new.links ≡ filter (λ l. not (joins a.now l)) links.old.links }
    ensures spare { links.old.spare ≤ links.new.spare }
{
    let _ = links.disconnect(a);
}

/// Attaches an interaction point to one of a child: what waits at it goes to where its way then ends.
pub(crate) fn attach(
    links: &mut Links,
    queues: &mut Queues<Interaction>,
    upper: IpAddr,
    lower: IpAddr,
)
    requires room { 1 ≤ links.old.spare }
    requires child { IsChild upper.path lower.path }
    requires free { (is_some (below links.old.links upper) || is_bound links.old.links lower) ≡ false }
    requires upper { is_declared upper queues.old.queues ≡ true }
    requires last { is_declared (bottom links.old.links lower) queues.old.queues ≡ true }
    requires differ { same_ip upper (bottom links.old.links lower) ≡ false }
    ensures links { links.new.links ≡ links.old.links ++ attachment upper lower ∷ [] }
    ensures room { links.old.spare ≤ links.new.spare + 1 }
    ensures end { below links.old.links (bottom links.old.links lower) ≡ None }
    ensures queues { queues.new ≡ record queues.old { queues = moved_all upper (bottom links.old.links lower) queues.old.queues } }
{
    let last = links.last_below(&lower);
    queues.move_all(&upper, last);
    let _ = links.attach(upper, lower);
}

/// Detaches an upper end: what waits where its way ends comes back to it.
pub(crate) fn detach(links: &mut Links, queues: &mut Queues<Interaction>, upper: &IpAddr)
    requires attached { is_some (below links.old.links upper.now) ≡ true }
    requires upper { is_declared upper.now queues.old.queues ≡ true }
    requires last { is_declared (bottom links.old.links upper.now) queues.old.queues ≡ true }
    ensures links { links.new.links ≡ filter (λ l. not (is_upper_of upper.now l)) links.old.links }
    ensures room { links.old.spare ≤ links.new.spare }
    ensures queues { queues.new ≡ record queues.old { queues = moved_all (bottom links.old.links upper.now) upper.now queues.old.queues } }
{
    let last = links.last_below(upper);
    queues.move_all(last, upper);
    let _ = links.detach(upper);
}

/// Declares the interaction points of an instance, the last one first.
fn declare_all<D: Disciplines>(
    disciplines: &D,
    queues: &mut Queues<Interaction>,
    body: u32,
    points: &mut Vec<IpAddr>,
)
    requires fresh { AllFresh (D.subject disciplines.now) body (reverse points.old.items) queues.old.queues }
    requires room { length points.old.items ≤ queues.old.room }
    ensures queues { queues.new.queues ≡ declared_all (D.subject disciplines.now) body (reverse points.old.items) queues.old.queues }
    ensures spare { queues.new.spare ≡ queues.old.spare }
    ensures room { queues.old.room ≤ queues.new.room + length points.old.items }
    ensures points { points.new.items ≡ [] }
    ensures capacity { vec_capacity points.new ≡ vec_capacity points.old }
{
    while let Some(point) = points.pop() {
        let common = disciplines.is_common(body, point.ip);
        queues.declare(point, common);
    }
}

/// Makes a child, with its interaction points.
pub(crate) fn create<D: Disciplines>(
    disciplines: &D,
    tree: &mut Tree<Part>,
    queues: &mut Queues<Interaction>,
    path: Path,
    part: Part,
    ips: Items<IpAddr>,
    points: &mut Vec<IpAddr>,
)
    requires space { 1 ≤ tree.old.spare }
    requires below { path ≢ [] }
    requires parent { IsSome (trees.births_at tree.old (parent_of path)) }
    requires next { IfSome (trees.births_at tree.old (parent_of path)) (λ births. last_of path ≡ births + 1) }
    requires fresh { AllFresh (D.subject disciplines.now) part.body ips queues.old.queues }
    requires room { length ips ≤ queues.old.room }
    requires none { points.old.items ≡ [] }
    requires capacity { length ips ≤ vec_capacity points.old }
    ensures tree { tree.new.instances ≡ trees.placed tree.old.instances path part }
    ensures space { tree.old.spare ≤ tree.new.spare + 1 }
    ensures queues { queues.new.queues ≡ declared_all (D.subject disciplines.now) part.body ips queues.old.queues }
    ensures spare { queues.new.spare ≡ queues.old.spare }
    ensures room { queues.old.room ≤ queues.new.room + length ips }
    ensures points { points.new.items ≡ [] }
    ensures capacity { vec_capacity points.new ≡ vec_capacity points.old }
{
    let body = part.body;
    let _ = tree.place(path, part);
    turn(ips, points);
    declare_all(disciplines, queues, body, points);
}

/// Notes the numbers of interactions.
fn note_numbers(dropped: &mut Vec<Interaction>, drops: &mut Vec<u64>)
    requires { length drops.old.items + length dropped.old.items ≤ vec_capacity drops.old }
    ensures drops { drops.new.items ≡ drops.old.items ++ reverse (each (λ i. i.number) dropped.old.items) }
    ensures capacity { vec_capacity drops.new ≡ vec_capacity drops.old }
    ensures dropped { dropped.new.items ≡ [] }
    ensures space { vec_capacity dropped.new ≡ vec_capacity dropped.old }
{
    while let Some(interaction) = dropped.pop() {
        drops.push_reserved(interaction.number);
    }
}

/// Removes an instance that is there and all below it, with its links and what waits there.
pub(crate) fn remove(
    tree: &mut Tree<Part>,
    queues: &mut Queues<Interaction>,
    links: &mut Links,
    path: &Path,
    dropped: &mut Vec<Interaction>,
    drops: &mut Vec<u64>,
)
    requires below { path.now ≢ [] }
    requires there { IsSome (trees.instance_at tree.old path.now) }
    requires none { dropped.old.items ≡ [] }
    requires space { length (items_below path.now queues.old.queues) ≤ vec_capacity dropped.old }
    requires drops { length drops.old.items + length (items_below path.now queues.old.queues) ≤ vec_capacity drops.old }
    ensures tree { tree.new.instances ≡ trees.without tree.old.instances path.now }
    ensures spare { tree.old.spare ≤ tree.new.spare }
    ensures queues { queues.new.queues ≡ dropped_below path.now queues.old.queues }
    ensures items { queues.old.spare ≤ queues.new.spare }
    ensures points { queues.old.room ≤ queues.new.room }
    ensures links { links.new.links ≡ filter (λ l. not (touches path.now l)) links.old.links }
    ensures room { links.old.spare ≤ links.new.spare }
    ensures drops { drops.new.items ≡ drops.old.items ++ reverse (each (λ i. i.number) (items_below path.now queues.old.queues)) }
    ensures capacity { vec_capacity drops.new ≡ vec_capacity drops.old }
    ensures dropped { dropped.new.items ≡ [] }
    ensures space { vec_capacity dropped.new ≡ vec_capacity dropped.old }
{
    queues.drop_below(path, dropped);
    links.forget(path);
    let _ = tree.remove(path);
    note_numbers(dropped, drops);
}
