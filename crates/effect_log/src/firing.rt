//! A firing is put into the shared state.

ghost use Rattle.std.specs.Prelude.{◌≡◌, ◌≤◌, ◌<◌, ◌+◌, ◌^◌, ℕ, [], ◌++◌, length, take, drop, reverse, true, IfSome, option_and_then, IsPermutation, IsSorted};
ghost use Rattle.std.specs.Ordering.{nat_cmp};
ghost use Rattle.module_tree.specs.Trees.{part_at};
ghost use Rattle.queue_store.specs.Queues.{is_declared};
ghost use Rattle.estelle_model.specs.Situation.{Situation};
ghost use Rattle.effect_log.specs.Standing.{Stands};
ghost use Rattle.effect_log.specs.Putting.{IsRan, log_of, effects_of, AnswersIn, begun_by, after_put, arrivals};
ghost use Rattle.effect_log.specs.Rooms.{outputs_in, HasRoomFor};
ghost use Rattle.effect_log.specs.Underway.{MayGoOn, HaveBeenPut, receives_at, head_taken};

use crate::disciplines::Disciplines;
use crate::made::make_all;
use crate::notes::Notes;
use crate::records::write_all;
use crate::shared::Shared;
use crate::stores::turn;
use estelle_model::{Done, Image, Interaction, Outcome, Part};
use estelle_tree::{IpAddr, Path};
use module_tree::Tree;
use queue_store::Queues;

/// The interaction point at which the transition of an instance receives, if it does.
fn received_at<D: Disciplines>(
    disciplines: &D,
    tree: &Tree<Part>,
    path: &Path,
    trans: u32,
) -> Option<u32>
    ensures { result ≡ option_and_then (λ part. receives_at (D.subject disciplines.now) part.body trans) (part_at tree.now path.now) }
{
    match tree.get(path) {
        Some(part) => disciplines.received_at(part.body, trans),
        None => None,
    }
}

/// Takes out the first item of the queue of an interaction point of an instance, if it is one.
fn take_head(queues: &mut Queues<Interaction>, path: Path, ip: Option<u32>)
    requires { IfSome ip (λ k. is_declared (record { path = path; ip = k }) queues.old.queues ≡ true) }
    ensures queues { queues.new.queues ≡ head_taken path ip queues.old.queues }
    ensures spare { queues.old.spare ≤ queues.new.spare }
    ensures room { queues.new.room ≡ queues.old.room }
{
    if let Some(ip) = ip {
        let at = IpAddr { path, ip };
        let _ = queues.take(&at);
    }
}

/// Sorts the numbers from a place on.
fn sort_from(numbers: &mut Vec<u64>, start: usize)
    requires { start ≤ length numbers.old.items }
    ensures before { take start numbers.new.items ≡ take start numbers.old.items }
    ensures permutation { IsPermutation (drop start numbers.old.items) (drop start numbers.new.items) }
    ensures sorted { IsSorted nat_cmp (drop start numbers.new.items) }
{
    numbers[start..].sort_unstable();
}

/// Makes the effects that are left, and writes the records.
fn put<D: Disciplines>(disciplines: &D, shared: &mut Shared, image: Image, notes: &mut Notes)
    requires { (may : MayGoOn (D.subject disciplines.now) (reverse notes.old.log.items) shared.old notes.old) × (may.acting.drops ≡ []) }
    ensures { (may : MayGoOn (D.subject disciplines.now) (reverse notes.old.log.items) shared.old notes.old)
        → HaveBeenPut (D.subject disciplines.now) (reverse notes.old.log.items) image.parts notes.old notes.new shared.new may.by may.acting }
{
    let start = notes.drops.len();
    make_all(disciplines, shared, notes);
    sort_from(&mut notes.drops, start);
    notes.rooms.clear();
    let Image { parts, links: _ } = image;
    write_all(&mut shared.tree, parts);
}

/// Puts what was done into the shared state: the interaction that the transition receives is taken out, the effects are
/// made in their order, each over the links of its moment, and the records of the image are written. The notes gain the
/// outputs in order, the numbers of what was dropped, rising, and the paths at which outputs arrived. It takes no memory.
pub fn apply<D: Disciplines>(disciplines: &D, shared: &mut Shared, done: Done, notes: &mut Notes)
    ghost before: { Situation }
    requires ran { IsRan done.outcome }
    requires stands { Stands (D.subject disciplines.now) shared.old before }
    requires answers { AnswersIn (D.subject disciplines.now) before done }
    requires room { HasRoomFor done.outcome shared.old notes.old }
    requires numbers { shared.old.outputs + outputs_in (log_of done.outcome) < 2 ^ 64 }
    ensures stands { Stands (D.subject disciplines.now) shared.new (after_put (D.subject disciplines.now) before done).situation }
    ensures outs { notes.new.outs.items ≡ notes.old.outs.items ++ (after_put (D.subject disciplines.now) before done).outs }
    ensures drops { notes.new.drops.items ≡ notes.old.drops.items ++ (after_put (D.subject disciplines.now) before done).drops }
    ensures arrivals { notes.new.arrivals.items ≡ notes.old.arrivals.items ++ arrivals (effects_of (log_of done.outcome)) (begun_by (D.subject disciplines.now) before done) }
    ensures rooms { notes.new.rooms.items ≡ [] }
    ensures dropped { notes.new.dropped.items ≡ [] }
    ensures log { notes.new.log.items ≡ [] }
    ensures points { notes.new.points.items ≡ [] }
{
    let Done {
        ticket: _,
        path,
        trans,
        outcome,
        left: _,
    } = done;
    match outcome {
        Outcome::Ran { image, effects } => {
            let ip = received_at(disciplines, &shared.tree, &path, trans);
            take_head(&mut shared.queues, path, ip);
            turn(effects, &mut notes.log);
            put(disciplines, shared, image, notes);
        }
        Outcome::Faulted(_) => {}
    }
}
