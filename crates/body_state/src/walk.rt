//! The walk, and the steps that it takes.

ghost use Rattle.std.specs.Prelude.{◌≡◌, ◌-◌, [], ◌∷◌, ◌++◌, length, take, option_map, Some, IfOk, OnOk};
ghost use Rattle.pascal_values.specs.declared.value.Value.TheVariants.{Fields};
ghost use Rattle.std.specs.Option.{option_copied};
ghost use Rattle.std.specs.FinMap as maps;
ghost use Rattle.estelle_model.specs.declared.place.Place.TheVariants.{Of};
ghost use Rattle.estelle_model.specs.States.{Logged, on_log};
ghost use Rattle.estelle_model.specs.Steps.{spend};
ghost use Rattle.estelle_model.specs.Places.{held, load, put, store, store_ordinal, blank_at, child_step};
ghost use Rattle.estelle_model.specs.Effects.{changed_in};
ghost use Rattle.estelle_model.specs.Subject.{Subject};
ghost use Rattle.estelle_model.specs.Actions.{enters_state};
ghost use Rattle.estelle_model.specs.Calls.{enter, leave};
ghost use Rattle.estelle_model.specs.Blocks.{fresh, enter_values};
ghost use Rattle.estelle_model.specs.Jobs.{instance_of, Shows, all_logged};
ghost use Rattle.estelle_model.specs.Computed.{core_of, log_from};
ghost use Rattle.body_values.specs.Gives.{Gives};
ghost use Rattle.body_state.specs.Progress.{running, after};
ghost use Rattle.body_state.specs.Follows.{Follows, carried};
ghost use Rattle.body_state.specs.Held.{or_gone, blanked_in, blanked_step, put_fitting, put_where};
ghost use Rattle.body_state.specs.InOrder.{InOrder};
ghost use Rattle.body_state.specs.Alterations.{altered};
ghost use Rattle.body_state.specs.Entries.{effect_of};

use crate::alteration::Alteration;
use crate::bodies::ModuleBodies;
use crate::instances::InstanceMap;
use crate::links::LinkList;
use crate::log::{Log, LogEntry};
use crate::parts::child_of;
use crate::view::View;
use body_values::{
    Stop, below, below_frame, blanked, fits, loaded, may_store, pop_frame, push_frame,
    put_in_frame, result_number, value_in, with_locals,
};
use estelle_model::{Denoter, Effect, Image, Part, Place, Routine, host_of};
use estelle_tree::{Items, Link, Path, Sequence};
use pascal_values::{Fault, Value, Values};
use std::alloc::{AllocError, Global};
use std::marker::Model;

/// A run of a block on a log of its effects, before or after one of its steps.
#[derive(Drop)]
pub struct Walk<'a> {
    bodies: &'a ModuleBodies<'a>,
    instances: InstanceMap<'a>,
    links: LinkList<'a>,
    log: Log,
    frames: Vec<Value>,
    left: u32,
}

impl<'a> Model for Walk<'a> {
    ghost use Rattle.std.specs.Coded.{codes};
    ghost use Rattle.std.specs.FinMap.{code};
    ghost use Rattle.pascal_values.specs.contracts.value.Value as of_value;
    ghost use Rattle.estelle_tree.specs.contracts.tree.specification.Spec as of_specs;
    ghost use Rattle.body_state.specs.Progress.{Progress};

    ghost Value = { Progress };

    ghost coded = { Prim.hlevel (codes, code, of_value.the_row.coded, of_specs.the_row.coded) };

    ghost use Rattle.body_state.specs.Shown.{shown_by};

    ghost view = { shown_by };
}

impl<'a> Walk<'a> {
    /// Before the first step, with so many units. It takes no memory: the parts and the links stay where they are until one of
    /// them changes.
    pub fn new(
        alloc: Global,
        bodies: &'a ModuleBodies<'a>,
        view: &View<'a>,
        budget: u32,
    ) -> Walk<'a>
        requires { InOrder view.now.parts }
        ensures { running result ≡ fresh (log_from (core_of bodies.now view.now)) budget }
    {
        Walk {
            bodies,
            instances: InstanceMap::lent(alloc, view.parts()),
            links: LinkList::lent(alloc, view.links()),
            log: Log::none(alloc),
            frames: Vec::new(alloc),
            left: budget,
        }
    }

    /// Before the first step, with so many units. It takes the image, and changes it in place.
    pub fn owning(
        alloc: Global,
        bodies: &'a ModuleBodies<'a>,
        image: Image,
        budget: u32,
    ) -> Result<Walk<'a>, AllocError>
        requires { InOrder image.parts }
        ensures { IfOk result (λ walk. running walk ≡ fresh (log_from (core_of bodies.now image)) budget) }
    {
        let Image { parts, links } = image;
        Ok(Walk {
            bodies,
            instances: InstanceMap::owning(alloc, parts)?,
            links: LinkList::owning(alloc, links)?,
            log: Log::none(alloc),
            frames: Vec::new(alloc),
            left: budget,
        })
    }

    /// The units that are left.
    pub fn left(&self) -> u32
        ensures { result ≡ self.now.left }
    {
        self.left
    }

    /// Takes a unit.
    #[tactic(auto, unfolding(estelle_model::specs::Steps::spend))]
    pub fn spend(&mut self) -> Result<(), Stop>
        ensures { Follows spend self.old result self.new }
    {
        if self.left == 0 {
            return Err(Stop::Fault(Fault::StepLimit));
        }
        self.left -= 1;
        Ok(())
    }

    /// What stands at a place, if it is one; nothing of it where its instance is gone.
    fn held(&self, place: &Place) -> Option<Option<&Value>>
        ensures { held Logged on_log place.now (running self.now) ≡ or_gone (option_map option_copied result) }
    {
        match place {
            Place::Of {
                path,
                variable,
                way,
            } => match self.instances.get(path) {
                Some(part) => Some(below(part.vars.items(), *variable, way.as_slice())),
                None => None,
            },
            Place::In {
                frame,
                variable,
                way,
            } => Some(below_frame(&self.frames, *frame, *variable, way.as_slice())),
        }
    }

    /// The value of a place.
    pub fn load(&self, alloc: Global, place: &Place) -> Result<Value, Stop>
        ensures { Follows (load Logged on_log place.now) self.now result self.now }
    {
        match self.held(place) {
            Some(part) => loaded(alloc, part),
            None => Err(Stop::Fault(Fault::NoModule)),
        }
    }

    /// What stands at a place, with nothing set in it.
    fn blanked(&self, alloc: Global, place: &Place) -> Result<Value, Stop>
        ensures { Follows (blanked_step place.now) self.now result self.now }
    {
        match self.held(place) {
            Some(part) => blanked_in(alloc, part),
            None => Err(Stop::Fault(Fault::NoModule)),
        }
    }

    /// Makes what stands at a place unset.
    pub fn blank(&mut self, alloc: Global, place: &Place) -> Result<(), Stop>
        ensures { Follows (blank_at Logged on_log place.now) self.old result self.new }
    {
        match self.blanked(alloc, place) {
            Ok(value) => self.put(alloc, place, value),
            Err(stop) => Err(stop),
        }
    }

    /// The child that a module variable of an instance holds.
    #[tactic(auto, unfolding(estelle_model::specs::Places::child_step))]
    pub fn child(&self, alloc: Global, path: &Path, number: u32) -> Result<Path, Stop>
        ensures { Follows (child_step Logged on_log path.now number) self.now result self.now }
    {
        match self.instances.get(path) {
            Some(part) => child_of(alloc, part, number),
            None => Err(Stop::Fault(Fault::NoModule)),
        }
    }

    /// Puts a value at a place, which it must belong to where that is of an instance.
    pub fn put(&mut self, alloc: Global, place: &Place, value: Value) -> Result<(), Stop>
        ensures { Follows (put Logged on_log place.now value) self.old result self.new }
    {
        match place {
            Place::Of {
                path,
                variable,
                way,
            } => self.put_of(alloc, path, *variable, way.as_slice(), Ok(()), value),
            Place::In {
                frame,
                variable,
                way,
            } => {
                put_in_frame(&mut self.frames, *frame, *variable, way.as_slice(), value);
                Ok(())
            }
        }
    }

    /// Puts a value at a part of a variable of an instance, where that is there and then the value fits.
    fn put_of(
        &mut self,
        alloc: Global,
        path: &Path,
        variable: u32,
        way: &[u32],
        fit: Result<(), Fault>,
        value: Value,
    ) -> Result<(), Stop>
        ensures { Follows (put_where path.now variable way.now fit value) self.old result self.new }
    {
        let Some(part) = self.instances.get(path) else {
            return Err(Stop::Fault(Fault::NoModule));
        };
        if let Err(fault) = fit {
            return Err(Stop::Fault(fault));
        }
        if !may_store(self.bodies.types(part.body), variable, way, &value) {
            return Err(Stop::Broken);
        }
        let by = Alteration::Store {
            variable,
            way,
            value,
        };
        self.instances.alter(alloc, path, by)?;
        Ok(())
    }

    /// Puts a value at a place, where that is there and then the value fits.
    pub fn put_fitting(
        &mut self,
        alloc: Global,
        place: &Place,
        fit: Result<(), Fault>,
        value: Value,
    ) -> Result<(), Stop>
        ensures { Follows (put_fitting place.now fit value) self.old result self.new }
    {
        match place {
            Place::Of {
                path,
                variable,
                way,
            } => self.put_of(alloc, path, *variable, way.as_slice(), fit, value),
            Place::In { .. } => match fit {
                Ok(()) => self.put(alloc, place, value),
                Err(fault) => Err(Stop::Fault(fault)),
            },
        }
    }

    /// Stores a value, which may be assigned to the type.
    pub fn store(
        &mut self,
        alloc: Global,
        denoter: &Denoter,
        place: &Place,
        value: Value,
    ) -> Result<(), Stop>
        ensures { Follows (store Logged on_log denoter.now place.now value) self.old result self.new }
    {
        let fit = fits(denoter, &value);
        self.put_fitting(alloc, place, fit, value)
    }

    /// Stores the value with an ordinal, if the host type has one and it fits the type.
    pub fn store_ordinal(
        &mut self,
        alloc: Global,
        denoter: &Denoter,
        place: &Place,
        n: i64,
    ) -> Result<(), Stop>
        ensures { Follows (store_ordinal Logged on_log denoter.now place.now n) self.old result self.new }
    {
        match value_in(host_of(denoter), n) {
            Ok(value) => self.store(alloc, denoter, place, value),
            Err(stop) => Err(stop),
        }
    }

    /// Enters a frame for a routine, with the values that it is given.
    pub fn enter(
        &mut self,
        alloc: Global,
        routine: &Routine<'_>,
        values: Values,
    ) -> Result<(), Stop>
        ensures { Follows (enter routine.now values) self.old result self.new }
    {
        let values = with_locals(alloc, routine, values)?;
        push_frame(&mut self.frames, values)?;
        Ok(())
    }

    /// Leaves the innermost frame, with what a function's result in it is.
    #[tactic(auto, unfolding(estelle_model::specs::Calls::leave))]
    pub fn leave(&mut self, routine: &Routine<'_>) -> Result<Value, Stop>
        ensures { Follows (leave routine.now) self.old result self.new }
    {
        let number = result_number(routine);
        let frame = pop_frame(&mut self.frames);
        Ok(frame.into_part(number))
    }

    /// Enters a frame with these values.
    pub fn push_frame(&mut self, values: Values) -> Result<(), AllocError>
        ensures { OnOk result (self.new ≡ record self.old { frames = self.old.frames ++ Fields values ∷ [] }) }
    {
        push_frame(&mut self.frames, values)
    }

    /// Leaves the innermost frame.
    pub fn pop_frame(&mut self)
        ensures { self.new ≡ record self.old { frames = take (length self.old.frames - 1) self.old.frames } }
    {
        let _frame = pop_frame(&mut self.frames);
    }

    /// Enters a frame with values alone, in place of all others.
    pub fn enter_values(&mut self, alloc: Global, values: Values) -> Result<(), Stop>
        ensures { Follows (enter_values values) self.old result self.new }
    {
        self.frames = Vec::new(alloc);
        push_frame(&mut self.frames, values)?;
        Ok(())
    }

    /// Leaves all frames.
    pub fn leave_values(&mut self, alloc: Global)
        ensures { self.new ≡ record self.old { frames = [] } }
    {
        self.frames = Vec::new(alloc);
    }

    /// The instance with a path.
    pub fn instance(&self, path: &Path) -> Option<&Part>
        ensures { option_map instance_of (option_copied result) ≡ maps.get self.now.instances path.now }
    {
        self.instances.get(path)
    }

    /// The links as they are now.
    pub fn links(&self) -> &[Link]
        ensures { result.now ≡ self.now.links }
    {
        self.links.items()
    }

    /// Alters the record of an instance, if it is there.
    pub fn keep(&mut self, alloc: Global, path: &Path, by: Alteration) -> Result<(), AllocError>
        ensures { OnOk result (self.new ≡ record self.old { instances = changed_in path.now (altered by.entry) self.old.instances }) }
    {
        self.instances.alter(alloc, path, by)
    }

    /// Makes an effect, and logs it.
    pub fn make(&mut self, alloc: Global, entry: LogEntry) -> Result<(), AllocError>
        ensures { OnOk result (self.new ≡ after (effect_of entry) self.old) }
    {
        self.instances.make(alloc, &entry)?;
        self.links.make(alloc, &entry)?;
        self.log.add(entry)
    }

    /// An instance enters a state, if one is said.
    pub fn enter_state(&mut self, alloc: Global, path: &Path, to: Option<u32>) -> Result<(), Stop>
        ensures { (s : Subject) → Follows (carried (enters_state s path.now to)) self.old result self.new }
    {
        match to {
            Some(state) => {
                self.keep(alloc, path, Alteration::Enter { state })?;
                Ok(())
            }
            None => Ok(()),
        }
    }

    /// An image that shows the instances and links as they are now, and all effects, as they are handed on.
    pub fn into_made(
        self,
        alloc: Global,
        bodies: &ModuleBodies,
    ) -> Result<(Image, Items<Effect>), AllocError>
        ensures { IfOk result (λ made. Shows made.0 (running self.entry).state.image × (made.1 ≡ all_logged bodies.now self.entry.log)) }
    {
        let Walk {
            bodies: _,
            instances,
            links,
            log,
            frames: _,
            left: _,
        } = self;
        let image = Image {
            parts: instances.into_parts(alloc)?,
            links: links.into_items(alloc)?,
        };
        Ok((image, log.into_effects(alloc, bodies)?))
    }
}

/// The value of a part with nothing set in it, if there is such a part.
fn blanked_in(alloc: Global, part: Option<&Value>) -> Result<Value, Stop>
    ensures { Gives (blanked_in (option_copied part.entry)) result }
{
    match part {
        None => Err(Stop::Broken),
        Some(value) => Ok(blanked(alloc, value)?),
    }
}
