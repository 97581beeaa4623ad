//! The interactions of channels.

ghost use Rattle.std.specs.Prelude.{◌≡◌, [], ◌++◌, map, IfOk, OnOk};
ghost use Rattle.std.specs.List.{flat_map};
ghost use Rattle.estelle_model.specs.Names.{at_place};
ghost use Rattle.body_program_numbers.specs.Numbering as spec;

use estelle_model::{InteractionKind, Meaning, Type};
use estelle_tree::{Channel, Inter, InterGroup, Items, Sequence};
use meaning_table::Table;
use std::alloc::{AllocError, Global};

/// Interactions with their places.
#[derive(Drop)]
pub struct Interactions {
    pub places: Items<u32>,
    pub kinds: Items<InteractionKind>,
}

fn shared(alloc: Global, types: &[Type]) -> Result<Items<Type>, AllocError>
    ensures { IfOk result (λ same. same ≡ types.now) }
{
    let mut same = Items::new(alloc);
    for denoter in types {
        same.push(denoter.share()?)?;
    }
    Ok(same)
}

fn copy_kind(alloc: Global, kind: &InteractionKind) -> Result<InteractionKind, AllocError>
    ensures { IfOk result (λ same. same ≡ kind.now) }
{
    Ok(InteractionKind {
        channel: kind.channel,
        word: kind.word.copy(alloc)?,
        senders: kind.senders,
        parameters: shared(alloc, kind.parameters.items())?,
    })
}

fn push_kind(
    alloc: Global,
    place: u32,
    meaning: &Meaning,
    out: &mut Interactions,
) -> Result<(), AllocError>
    ensures places { OnOk result (out.new.places ≡ out.old.places ++ map (λ i. i.0) (spec.interaction_as place meaning.now)) }
    ensures kinds { OnOk result (out.new.kinds ≡ out.old.kinds ++ map (λ i. i.1) (spec.interaction_as place meaning.now)) }
{
    match meaning {
        Meaning::Interaction(kind) => {
            out.kinds.push(copy_kind(alloc, kind)?)?;
            out.places.push(place)
        }
        _ => Ok(()),
    }
}

fn push_interaction(table: &Table, inter: &Inter, out: &mut Interactions) -> Result<(), AllocError>
    ensures places { OnOk result (out.new.places ≡ out.old.places ++ map (λ i. i.0) (spec.interaction_at table.now.declared inter.now)) }
    ensures kinds { OnOk result (out.new.kinds ≡ out.old.kinds ++ map (λ i. i.1) (spec.interaction_at table.now.declared inter.now)) }
{
    let place = inter.name.span.start;
    push_kind(table.alloc, place, table.meaning_at(place), out)
}

fn push_group(table: &Table, group: &InterGroup, out: &mut Interactions) -> Result<(), AllocError>
    ensures places { OnOk result (out.new.places ≡ out.old.places ++ map (λ i. i.0) (spec.group_interactions table.now.declared group.now)) }
    ensures kinds { OnOk result (out.new.kinds ≡ out.old.kinds ++ map (λ i. i.1) (spec.group_interactions table.now.declared group.now)) }
{
    let inters = group.inters.items();
    for inter in inters {
        push_interaction(table, inter, out)?;
    }
    Ok(())
}

/// The interactions of a channel in the order of their declaration.
fn interactions_of(table: &Table, channel: &Channel) -> Result<Interactions, AllocError>
    ensures places { IfOk result (λ all. all.places ≡ spec.interaction_places table.now.declared channel.now) }
    ensures kinds { IfOk result (λ all. all.kinds ≡ spec.kinds_in table.now.declared channel.now) }
{
    let mut all = Interactions {
        places: Items::new(table.alloc),
        kinds: Items::new(table.alloc),
    };
    let groups = channel.groups.items();
    for group in groups {
        push_group(table, group, &mut all)?;
    }
    Ok(all)
}

/// Those of each channel: their places, and what they are.
#[derive(Drop)]
pub struct ChannelInteractions {
    pub places: Items<Items<u32>>,
    pub kinds: Items<Items<InteractionKind>>,
}

/// The interactions of all channels.
pub fn all_interactions(
    table: &Table,
    channels: &[&Channel],
) -> Result<ChannelInteractions, AllocError>
    ensures places { IfOk result (λ all. all.places ≡ map (spec.interaction_places table.now.declared) (map (λ c. c.now) channels.now)) }
    ensures kinds { IfOk result (λ all. all.kinds ≡ map (spec.kinds_in table.now.declared) (map (λ c. c.now) channels.now)) }
{
    let mut all = ChannelInteractions {
        places: Items::new(table.alloc),
        kinds: Items::new(table.alloc),
    };
    for channel in channels {
        let Interactions { places, kinds } = interactions_of(table, channel)?;
        all.places.push(places)?;
        all.kinds.push(kinds)?;
    }
    Ok(all)
}
