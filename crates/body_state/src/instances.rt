//! The instances that a block reads and changes, by their paths.

ghost use Rattle.std.specs.Prelude.{◌≡◌, not, map, option_map, IfOk, OnOk};
ghost use Rattle.std.specs.Option.{option_copied};
ghost use Rattle.std.specs.FinMap as maps;
ghost use Rattle.estelle_tree.specs.Paths.{is_inside};
ghost use Rattle.estelle_model.specs.Effects as effects;
ghost use Rattle.estelle_model.specs.Effects.{changed_in, instances_after};
ghost use Rattle.estelle_model.specs.Jobs.{part_of_entry, instance_of};
ghost use Rattle.body_state.specs.InOrder.{InOrder, instances_of, parts_behind};
ghost use Rattle.body_state.specs.Alterations.{altered};
ghost use Rattle.body_state.specs.Entries.{effect_of};

use crate::alteration::{Alteration, alter_at};
use crate::log::LogEntry;
use crate::parts::{find_shown, insert_part, keep_outside, kept_parts, own_parts, shown_at};
use body_values::{copy_part_at, into_vec};
use estelle_model::Part;
use estelle_tree::{Items, Path};
use std::alloc::{AllocError, Global};
use std::marker::Model;

/// The instances of an image. They are lent, and copied once one of them changes.
#[derive(Drop)]
pub struct InstanceMap<'a> {
    lent: &'a [&'a Part],
    /// In place of the lent parts, once one has changed.
    own: Vec<Part>,
    is_own: bool,
}

impl<'a> Model for InstanceMap<'a> {
    ghost use Rattle.std.specs.Coded.{codes};
    ghost use Rattle.std.specs.FinMap.{code};
    ghost use Rattle.pascal_values.specs.contracts.value.Value as of_value;
    ghost use Rattle.estelle_model.specs.Core.{Instances};

    ghost Value = { Instances };

    ghost coded = { Prim.hlevel (codes, code, of_value.the_row.coded) };

    ghost use Rattle.body_state.specs.Kept.{instances_kept, HasOrder};

    ghost view = { instances_kept };

    ghost invariant = { HasOrder };
}

impl<'a> InstanceMap<'a> {
    pub(crate) fn lent(alloc: Global, parts: &'a [&'a Part]) -> InstanceMap<'a>
        requires { InOrder (parts_behind parts.now) }
        ensures { result ≡ instances_of (parts_behind parts.now) }
    {
        InstanceMap {
            lent: parts,
            own: Vec::new(alloc),
            is_own: false,
        }
    }

    pub(crate) fn owning(alloc: Global, parts: Items<Part>) -> Result<InstanceMap<'a>, AllocError>
        requires { InOrder parts }
        ensures { IfOk result (λ instances. instances ≡ instances_of parts) }
    {
        Ok(InstanceMap {
            lent: &[],
            own: into_vec(alloc, parts)?,
            is_own: true,
        })
    }

    pub(crate) fn get(&self, path: &Path) -> Option<&Part>
        ensures { option_map instance_of (option_copied result) ≡ maps.get self.now path.now }
    {
        shown_at(self.lent, &self.own, self.is_own, path)
    }

    /// Alters the record of an instance, if it is there.
    pub(crate) fn alter(
        &mut self,
        alloc: Global,
        path: &Path,
        by: Alteration,
    ) -> Result<(), AllocError>
        ensures { OnOk result (self.new ≡ changed_in path.now (altered by.entry) self.old) }
    {
        match find_shown(self.lent, &self.own, self.is_own, path) {
            Some(place) => {
                own_parts(alloc, self.lent, &mut self.own, self.is_own)?;
                self.is_own = true;
                alter_at(&mut self.own, place, by)
            }
            None => Ok(()),
        }
    }

    /// Puts an instance at its path.
    fn put(&mut self, alloc: Global, part: Part) -> Result<(), AllocError>
        ensures { OnOk result (self.new ≡ maps.insert self.old part.path (instance_of part)) }
    {
        own_parts(alloc, self.lent, &mut self.own, self.is_own)?;
        self.is_own = true;
        insert_part(&mut self.own, part)
    }

    /// Removes an instance and all below it.
    fn remove(&mut self, alloc: Global, path: &Path) -> Result<(), AllocError>
        ensures { OnOk result (self.new ≡ maps.retain_keys self.old (λ q. not (is_inside path.now q))) }
    {
        own_parts(alloc, self.lent, &mut self.own, self.is_own)?;
        self.is_own = true;
        keep_outside(&mut self.own, path);
        Ok(())
    }

    /// Makes a child of an instance.
    #[tactic(auto, unfolding(estelle_model::specs::Effects::instances_after))]
    fn create(
        &mut self,
        alloc: Global,
        parent: &Path,
        number: u64,
        part: &Part,
    ) -> Result<(), AllocError>
        ensures { OnOk result (self.new ≡ instances_after (effects.Create parent.now number (instance_of part.now)) self.old) }
    {
        self.alter(alloc, parent, Alteration::Bear)?;
        let path = parent.child(alloc, number)?;
        let child = copy_part_at(alloc, &path, part)?;
        self.put(alloc, child)
    }

    /// What an effect does to the instances.
    #[tactic(auto, unfolding(estelle_model::specs::Effects::instances_after))]
    pub(crate) fn make(&mut self, alloc: Global, entry: &LogEntry) -> Result<(), AllocError>
        ensures { OnOk result (self.new ≡ instances_after (effect_of entry.now) self.old) }
    {
        match entry {
            LogEntry::Create {
                parent,
                number,
                part,
            } => self.create(alloc, parent, *number, part),
            LogEntry::Remove { parent, number } => {
                let path = parent.child(alloc, *number)?;
                self.remove(alloc, &path)
            }
            LogEntry::Output { .. } => Ok(()),
            LogEntry::Connect { .. } => Ok(()),
            LogEntry::Disconnect { .. } => Ok(()),
            LogEntry::Attach { .. } => Ok(()),
            LogEntry::Detach { .. } => Ok(()),
        }
    }

    /// As the parts of an image.
    pub(crate) fn into_parts(self, alloc: Global) -> Result<Items<Part>, AllocError>
        ensures { IfOk result (λ parts. parts ≡ map part_of_entry (maps.entries self.entry)) }
    {
        let InstanceMap { lent, own, is_own } = self;
        Ok(Items::from_vec(kept_parts(alloc, lent, own, is_own)?))
    }
}
