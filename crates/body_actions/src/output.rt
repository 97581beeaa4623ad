//! Outputs, at interaction points (ISO/IEC 9074: output).

ghost use Rattle.std.specs.Prelude.{◌≡◌, ◌&&◌};
ghost use Rattle.estelle_model.specs.Belonging.{are_values_of};
ghost use Rattle.estelle_model.specs.InteractionPoints.{point};
ghost use Rattle.estelle_model.specs.Actions as actions;
ghost use Rattle.estelle_model.specs.Definitions.{types_received};
ghost use Rattle.estelle_model.specs.declared.meaning.Meaning.TheVariants.{Interaction};
ghost use Rattle.body_state.specs.Follows.{Follows, carried};

use crate::points::{is_sent_at, point};
use body_state::{LogEntry, ModuleBodies, Walk};
use body_values::{Stop, are_values_of};
use estelle_model::{InteractionKind, Meaning, Type};
use estelle_tree::{IpAddr, Sequence, Word};
use pascal_values::Values;
use std::alloc::Global;

/// The types of the parameters of an interaction.
pub fn types_received<'m>(meaning: &'m Meaning) -> &'m [Type]
    ensures { result.now ≡ types_received meaning.now }
{
    match meaning {
        Meaning::Interaction(kind) => kind.parameters.as_slice(),
        _ => &[],
    }
}

fn may_output(
    bodies: &ModuleBodies,
    walk: &Walk,
    word: &Word,
    kind: &InteractionKind,
    values: &Values,
    a: &IpAddr,
) -> bool
    ensures { result ≡ (actions.is_sent_at (point bodies.now walk.now.instances a.now) word.now (Interaction kind.now) && are_values_of (types_received (Interaction kind.now)) values.now) }
{
    is_sent_at(point(walk, bodies, a), word, kind)
        && are_values_of(kind.parameters.as_slice(), values.items())
}

/// An output of an interaction at an interaction point, by the words of both, with values of its parameters.
pub fn output_at(
    alloc: Global,
    bodies: &ModuleBodies,
    walk: &mut Walk,
    ip: &Word,
    word: &Word,
    kind: &InteractionKind,
    values: Values,
    a: IpAddr,
) -> Result<(), Stop>
    ensures { Follows (carried (actions.output_at bodies.now ip.now word.now (Interaction kind.now) values a)) walk.old result walk.new }
{
    if !may_output(bodies, walk, word, kind, &values, &a) {
        return Err(Stop::Broken);
    }
    let made = LogEntry::Output {
        from: a,
        ip: ip.copy(alloc)?,
        name: word.copy(alloc)?,
        values,
    };
    walk.make(alloc, made)?;
    Ok(())
}
