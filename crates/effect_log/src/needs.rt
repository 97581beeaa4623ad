//! What the effects of a firing need.

ghost use Rattle.std.specs.Prelude.{◌≡◌, ◌≤◌, ◌+◌, ◌||◌, false, All, IfOk, OnOk};
ghost use Rattle.std.specs.List.{list_any};
ghost use Rattle.effect_log.specs.Rooms.{outputs_of, links_of, instances_of, points_of, depth_of, removes, outputs_in, links_in, instances_in, points_in};

use estelle_model::Effect;
use std::alloc::AllocError;

/// How much of each store the effects take.
#[derive(Clone, Copy)]
pub(crate) struct Needs {
    pub(crate) outputs: usize,
    pub(crate) links: usize,
    pub(crate) instances: usize,
    pub(crate) points: usize,
    /// No path of an instance is longer.
    pub(crate) widest: usize,
    /// Whether an instance is removed.
    pub(crate) removes: bool,
}

fn sum(a: usize, b: usize) -> Result<usize, AllocError>
    ensures { IfOk result (λ c. c ≡ a + b) }
{
    match a.checked_add(b) {
        Some(c) => Ok(c),
        None => Err(AllocError),
    }
}

impl Needs {
    fn none(widest: usize) -> Needs
        ensures { result ≡ record { outputs = 0; links = 0; instances = 0; points = 0; widest = widest; removes = false } }
    {
        Needs {
            outputs: 0,
            links: 0,
            instances: 0,
            points: 0,
            widest,
            removes: false,
        }
    }

    /// One more effect.
    fn add(&mut self, effect: &Effect) -> Result<(), AllocError>
        ensures outputs { OnOk result (self.new.outputs ≡ self.old.outputs + outputs_of effect.now) }
        ensures links { OnOk result (self.new.links ≡ self.old.links + links_of effect.now) }
        ensures instances { OnOk result (self.new.instances ≡ self.old.instances + instances_of effect.now) }
        ensures points { OnOk result (self.new.points ≡ self.old.points + points_of effect.now) }
        ensures widest { OnOk result (self.old.widest ≤ self.new.widest) }
        ensures depth { OnOk result (depth_of effect.now ≤ self.new.widest) }
        ensures removes { OnOk result (self.new.removes ≡ (self.old.removes || removes effect.now)) }
    {
        match effect {
            Effect::Output { .. } => self.outputs = sum(self.outputs, 1)?,
            Effect::Connect { .. } => self.links = sum(self.links, 1)?,
            Effect::Attach { .. } => self.links = sum(self.links, 1)?,
            Effect::Disconnect { .. } => {}
            Effect::Detach { .. } => {}
            Effect::Create { path, part: _, ips } => {
                self.instances = sum(self.instances, 1)?;
                self.points = sum(self.points, ips.len())?;
                self.widest = self.widest.max(path.items().len());
            }
            Effect::Remove { .. } => self.removes = true,
        }
        Ok(())
    }

    /// What these effects need, where no path is longer than the widest so far.
    pub(crate) fn of(effects: &[Effect], widest: usize) -> Result<Needs, AllocError>
        ensures outputs { IfOk result (λ needs. needs.outputs ≡ outputs_in effects.now) }
        ensures links { IfOk result (λ needs. needs.links ≡ links_in effects.now) }
        ensures instances { IfOk result (λ needs. needs.instances ≡ instances_in effects.now) }
        ensures points { IfOk result (λ needs. needs.points ≡ points_in effects.now) }
        ensures widest { IfOk result (λ needs. widest ≤ needs.widest) }
        ensures depths { IfOk result (λ needs. All (λ e. depth_of e ≤ needs.widest) effects.now) }
        ensures removes { IfOk result (λ needs. needs.removes ≡ list_any removes effects.now) }
    {
        let mut needs = Needs::none(widest);
        for effect in effects {
            needs.add(effect)?;
        }
        Ok(needs)
    }
}
