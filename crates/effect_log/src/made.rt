//! The effects, one after another.

ghost use Rattle.std.specs.Prelude.{List, ◌∷◌, reverse};
ghost use Rattle.estelle_model.specs.declared.effect.Effect.{Effect};
ghost use Rattle.effect_log.specs.Underway.{MaySend, HasSent, MayGoOn, WasMade, HaveBeenMade};

use crate::disciplines::Disciplines;
use crate::notes::Notes;
use crate::shared::Shared;
use crate::stores;
use estelle_model::{Effect, Interaction, Out};
use estelle_tree::IpAddr;

/// An output has the next number. It goes its way, or is lost, by the links of this moment.
fn output(shared: &mut Shared, from: &IpAddr, item: Interaction, out: Out, notes: &mut Notes)
    requires { MaySend from.now shared.old notes.old }
    ensures { HasSent from.now item out shared.old shared.new notes.old notes.new }
{
    shared.outputs += 1;
    let mut item = item;
    item.number = shared.outputs;
    let mut out = out;
    out.lost = stores::send(
        &shared.links,
        &mut shared.queues,
        from,
        item,
        &mut notes.rooms,
        &mut notes.arrivals,
    );
    notes.outs.push_reserved(out);
}

/// Makes an effect.
fn make<D: Disciplines>(disciplines: &D, shared: &mut Shared, effect: Effect, notes: &mut Notes)
    requires { (rest : List Effect) × MayGoOn (D.subject disciplines.now) (effect ∷ rest) shared.old notes.old }
    ensures { (rest : List Effect) (may : MayGoOn (D.subject disciplines.now) (effect ∷ rest) shared.old notes.old)
        → WasMade (D.subject disciplines.now) effect rest notes.old notes.new shared.new may.by may.acting }
{
    match effect {
        Effect::Output { from, item, out } => output(shared, &from, item, out, notes),
        Effect::Connect { a, b } => stores::connect(&mut shared.links, a, b),
        Effect::Disconnect { a } => stores::disconnect(&mut shared.links, &a),
        Effect::Attach { upper, lower } => {
            stores::attach(&mut shared.links, &mut shared.queues, upper, lower)
        }
        Effect::Detach { upper } => {
            stores::detach(&mut shared.links, &mut shared.queues, &upper)
        }
        Effect::Create { path, part, ips } => stores::create(
            disciplines,
            &mut shared.tree,
            &mut shared.queues,
            path,
            part,
            ips,
            &mut notes.points,
        ),
        Effect::Remove { path } => stores::remove(
            &mut shared.tree,
            &mut shared.queues,
            &mut shared.links,
            &path,
            &mut notes.dropped,
            &mut notes.drops,
        ),
    }
}

/// Makes all effects that are left.
pub(crate) fn make_all<D: Disciplines>(disciplines: &D, shared: &mut Shared, notes: &mut Notes)
    requires { MayGoOn (D.subject disciplines.now) (reverse notes.old.log.items) shared.old notes.old }
    ensures { (may : MayGoOn (D.subject disciplines.now) (reverse notes.old.log.items) shared.old notes.old)
        → HaveBeenMade (D.subject disciplines.now) (reverse notes.old.log.items) notes.old notes.new shared.new may.by may.acting }
{
    while let Some(effect) = notes.log.pop() {
        make(disciplines, shared, effect, notes);
    }
}
