//! The effects of a block, as they are kept until it ends.

ghost use Rattle.std.specs.Prelude.{◌≡◌, [], ◌∷◌, ◌++◌, map, IfOk, OnOk};
ghost use Rattle.estelle_model.specs.Effects as effects;
ghost use Rattle.estelle_model.specs.Subject.{Subject};
ghost use Rattle.estelle_model.specs.Actions.{at, count_from};
ghost use Rattle.estelle_model.specs.Jobs.{instance_of, logged_as, all_logged};
ghost use Rattle.body_state.specs.Entries.{effect_of, effects_of};

use crate::bodies::ModuleBodies;
use body_values::{copy_address, copy_part_at, copy_values};
use estelle_model::{Effect, Interaction, Out, Part};
use estelle_tree::{IpAddr, Items, Path, Word};
use pascal_values::Values;
use std::alloc::{AllocError, Global};
use std::marker::Model;

/// An effect of a block (ISO/IEC 9074).
#[derive(Drop)]
pub enum LogEntry {
    /// By the names of the interaction point and of the interaction.
    Output {
        from: IpAddr,
        ip: Word,
        name: Word,
        values: Values,
    },
    Connect {
        first: IpAddr,
        second: IpAddr,
    },
    Disconnect {
        a: IpAddr,
    },
    Attach {
        upper: IpAddr,
        lower: IpAddr,
    },
    Detach {
        upper: IpAddr,
    },
    /// A child as its `init` makes it, with the number of its birth.
    Create {
        parent: Path,
        number: u64,
        part: Part,
    },
    /// The child and all below it.
    Remove {
        parent: Path,
        number: u64,
    },
}

/// The effects so far, in order.
#[derive(Drop)]
pub struct Log {
    entries: Vec<LogEntry>,
}

impl Model for Log {
    ghost use Rattle.std.specs.Prelude.{List};
    ghost use Rattle.std.specs.Coded.{codes};
    ghost use Rattle.pascal_values.specs.contracts.value.Value as of_value;
    ghost use Rattle.estelle_model.specs.Effects.{StatementEffect};

    ghost Value = { List StatementEffect };

    ghost coded = { Prim.hlevel (codes, of_value.the_row.coded) };

    ghost use Rattle.body_state.specs.Entries.{effects_of};

    ghost view = { λ l. effects_of l.entries.items };
}

impl Log {
    pub fn none(alloc: Global) -> Log
        ensures { result ≡ [] }
    {
        Log {
            entries: Vec::new(alloc),
        }
    }

    pub fn add(&mut self, entry: LogEntry) -> Result<(), AllocError>
        ensures { OnOk result (self.new ≡ self.old ++ effect_of entry ∷ []) }
    {
        match self.entries.push(entry) {
            Ok(()) => Ok(()),
            Err(_) => Err(AllocError),
        }
    }

    /// As they are handed on.
    pub fn into_effects(
        self,
        alloc: Global,
        bodies: &ModuleBodies,
    ) -> Result<Items<Effect>, AllocError>
        ensures { IfOk result (λ made. made ≡ all_logged bodies.now self) }
    {
        all_logged(alloc, bodies, &self.entries)
    }
}

fn all_logged(
    alloc: Global,
    bodies: &ModuleBodies,
    entries: &[LogEntry],
) -> Result<Items<Effect>, AllocError>
    ensures { IfOk result (λ made. made ≡ all_logged bodies.now (effects_of entries.now)) }
{
    let mut effects = Items::new(alloc);
    for entry in entries {
        effects.push(logged(alloc, bodies, entry)?)?;
    }
    Ok(effects)
}

/// An effect as it is handed on.
fn logged(alloc: Global, bodies: &ModuleBodies, entry: &LogEntry) -> Result<Effect, AllocError>
    ensures { IfOk result (λ made. made ≡ logged_as bodies.now (effect_of entry.now)) }
{
    match entry {
        LogEntry::Output {
            from,
            ip,
            name,
            values,
        } => output(alloc, from, ip, name, values),
        LogEntry::Connect { first, second } => Ok(Effect::Connect {
            a: copy_address(alloc, first)?,
            b: copy_address(alloc, second)?,
        }),
        LogEntry::Disconnect { a } => Ok(Effect::Disconnect {
            a: copy_address(alloc, a)?,
        }),
        LogEntry::Attach { upper, lower } => Ok(Effect::Attach {
            upper: copy_address(alloc, upper)?,
            lower: copy_address(alloc, lower)?,
        }),
        LogEntry::Detach { upper } => Ok(Effect::Detach {
            upper: copy_address(alloc, upper)?,
        }),
        LogEntry::Create {
            parent,
            number,
            part,
        } => create(alloc, bodies, parent, *number, part),
        LogEntry::Remove { parent, number } => Ok(Effect::Remove {
            path: parent.child(alloc, *number)?,
        }),
    }
}

fn output(
    alloc: Global,
    from: &IpAddr,
    ip: &Word,
    name: &Word,
    values: &Values,
) -> Result<Effect, AllocError>
    ensures { (s : Subject) → IfOk result (λ made. made ≡ logged_as s (effects.Output from.now ip.now name.now values.now)) }
{
    Ok(Effect::Output {
        from: copy_address(alloc, from)?,
        item: Interaction {
            number: 0,
            name: name.copy(alloc)?,
            values: copy_values(alloc, values)?,
        },
        out: Out {
            path: from.path.copy(alloc)?,
            ip: ip.copy(alloc)?,
            name: name.copy(alloc)?,
            values: copy_values(alloc, values)?,
            lost: false,
        },
    })
}

fn create(
    alloc: Global,
    bodies: &ModuleBodies,
    parent: &Path,
    number: u64,
    part: &Part,
) -> Result<Effect, AllocError>
    ensures { IfOk result (λ made. made ≡ logged_as bodies.now (effects.Create parent.now number (instance_of part.now))) }
{
    let path = parent.child(alloc, number)?;
    let count = bodies.ips(part.body).len();
    Ok(Effect::Create {
        part: copy_part_at(alloc, &path, part)?,
        ips: points_of(alloc, &path, count)?,
        path,
    })
}

/// So many interaction points of an instance, in declaration order.
fn points_of(alloc: Global, path: &Path, count: usize) -> Result<Items<IpAddr>, AllocError>
    ensures { IfOk result (λ points. points ≡ map (at path.now) (count_from 0 count)) }
{
    let mut points = Items::new(alloc);
    for number in 0..count {
        let Ok(ip) = u32::try_from(number) else {
            return Err(AllocError);
        };
        points.push(IpAddr {
            path: path.copy(alloc)?,
            ip,
        })?;
    }
    Ok(points)
}
