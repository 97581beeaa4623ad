//! What a body has of its header.

ghost use Rattle.std.specs.Prelude.{◌≡◌, ◌++◌, IfOk, OnOk};
ghost use Rattle.std.specs.Option.{option_copied};
ghost use Rattle.estelle_model.specs.Bodies.{no_heading, heading};
ghost use Rattle.meaning_table.specs.Known.{meanings_of};
ghost use Rattle.body_program.specs.Headings.{of_heading};

use estelle_model::{Attribute, Heading, InteractionPoint, Meaning, Type};
use estelle_tree::{Items, Name, Sequence};
use meaning_table::Table;
use std::alloc::{AllocError, Global};

/// What a body has of its header.
#[derive(Drop)]
pub struct HeaderPart {
    /// The place where the header is declared.
    pub at: u32,
    pub attribute: Option<Attribute>,
    /// The types of the parameters.
    pub parameters: Items<Type>,
    /// The types of the parameters, and then of the exported variables.
    pub variables: Items<Type>,
    pub ips: Items<InteractionPoint>,
}

fn push_shared(types: &[Type], out: &mut Items<Type>) -> Result<(), AllocError>
    ensures { OnOk result (out.new ≡ out.old ++ types.now) }
{
    for denoter in types {
        out.push(denoter.share()?)?;
    }
    Ok(())
}

fn shared(alloc: Global, types: &[Type]) -> Result<Items<Type>, AllocError>
    ensures { IfOk result (λ same. same ≡ types.now) }
{
    let mut same = Items::new(alloc);
    push_shared(types, &mut same)?;
    Ok(same)
}

fn part_of(alloc: Global, heading: &Heading) -> Result<HeaderPart, AllocError>
    ensures { IfOk result (λ part. part ≡ of_heading heading.now) }
{
    let mut variables = shared(alloc, heading.parameters.items())?;
    push_shared(heading.exports.items(), &mut variables)?;
    Ok(HeaderPart {
        at: heading.at,
        attribute: heading.attribute,
        parameters: shared(alloc, heading.parameters.items())?,
        variables,
        ips: Items::from_slice(alloc, heading.ips.items())?,
    })
}

/// Of no header, as the specification has none.
pub fn no_part(alloc: Global) -> HeaderPart
    ensures { result ≡ of_heading no_heading }
{
    HeaderPart {
        at: 0,
        attribute: None,
        parameters: Items::new(alloc),
        variables: Items::new(alloc),
        ips: Items::new(alloc),
    }
}

/// Of the header that a name means.
pub fn header_part(table: &Table, name: &Name) -> Result<HeaderPart, AllocError>
    ensures { IfOk result (λ part. part ≡ of_heading (heading (meanings_of table.now) (Some name.now))) }
{
    match table.meaning(name) {
        Meaning::Header(heading) => part_of(table.alloc, heading),
        _ => Ok(no_part(table.alloc)),
    }
}
