//! The specification whose bodies have codes, its numbers, and its instance alone.

use body_numbers::{BodyNumbers, IpNumbers, Numbers};
use body_program::Program;
use estelle_model::{
    Denoter, Host, Image, Interaction, InteractionKind, InteractionPoint, Part, Senders, Type,
};
use estelle_tree::{Items, Path, SequenceMut, Word};
use pascal_values::{Shape, Value, Values};
use std::alloc::{AllocError, Global};

/// Its blocks and clauses are there for their forms: codes say what they do.
pub const TEXT: &str = "specification s systemprocess;
channel c(a, b); by a, b: m(i: integer);
module kid process; ip p: c(b); end;
body inner for kid;
var k: integer;
state born, grown;
initialize to grown begin k := 1 end;
end;
modvar x: kid;
var n: integer;
ip q: c(a);
state go, done;
initialize to go begin n := 0 end;
trans
from go to done begin n := 1 end;
from go provided n < 2 begin n := 1 end;
from go delay (n, 5) begin n := 1 end;
from go delay (n) begin n := 1 end;
from go delay (n, *) begin n := 1 end;
from go provided n < 2 delay (n, 5) begin n := 1 end;
from go when q.m provided i < 3 begin n := i end;
end.
";

/// Number 0 is that of integers, number 1 that of 0..3.
fn shapes(alloc: Global) -> Result<Items<Shape>, AllocError> {
    let mut shapes = Items::new(alloc);
    shapes.push(Shape::Int {
        low: -100,
        high: 100,
    })?;
    shapes.push(Shape::Int { low: 0, high: 3 })?;
    Ok(shapes)
}

fn integer(alloc: Global) -> Result<Items<Type>, AllocError> {
    let mut types = Items::new(alloc);
    types.push(Type::of(
        alloc,
        Denoter::Ordinal {
            host: Host::Integer,
            low: i64::MIN,
            high: i64::MAX,
        },
    )?)?;
    Ok(types)
}

fn interactions(alloc: Global, channel: u32) -> Result<Items<InteractionKind>, AllocError> {
    let mut kinds = Items::new(alloc);
    kinds.push(InteractionKind {
        channel,
        word: Word::of(alloc, b"m")?,
        senders: Senders {
            first: true,
            second: true,
        },
        parameters: integer(alloc)?,
    })?;
    Ok(kinds)
}

fn of_root(alloc: Global) -> Result<BodyNumbers, AllocError> {
    let mut module_variables = Items::new(alloc);
    module_variables.push(0)?;
    let mut ips = Items::new(alloc);
    ips.push(IpNumbers {
        word: Word::of(alloc, b"q")?,
        channel: 0,
    })?;
    Ok(BodyNumbers {
        module_variables,
        ips,
    })
}

/// The place of the channel of the first interaction point of the specification.
fn channel_of(points: &[InteractionPoint]) -> u32 {
    match points.get(0) {
        None => 0,
        Some(point) => point.channel,
    }
}

pub fn numbers(alloc: Global, program: &Program) -> Result<Numbers, AllocError> {
    let channel = channel_of(program.bodies().ips(0));
    let mut channels = Items::new(alloc);
    channels.push(interactions(alloc, channel)?)?;
    let mut bodies = Items::new(alloc);
    bodies.push(of_root(alloc)?)?;
    Ok(Numbers {
        shapes: shapes(alloc)?,
        channels,
        headers: Items::new(alloc),
        bodies,
    })
}

/// The specification's instance with this value of its variable.
pub fn instance(alloc: Global, state: u32, n: i64) -> Result<Part, AllocError> {
    let mut vars = Values::none(alloc);
    vars.push(Value::Int(n))?;
    let mut modvars = Items::new(alloc);
    modvars.push(None)?;
    Ok(Part {
        path: Path::root(alloc),
        body: 0,
        state: Some(state),
        vars,
        modvars,
        births: 0,
    })
}

/// An image of it alone.
pub fn image(alloc: Global, state: u32, n: i64) -> Result<Image, AllocError> {
    let mut parts = Items::new(alloc);
    parts.push(instance(alloc, state, n)?)?;
    Ok(Image {
        parts,
        links: Items::new(alloc),
    })
}

/// What it receives: an integer, or of another kind a truth value.
#[derive(Clone, Copy)]
pub enum Received {
    Nothing,
    Number(i64),
    Truth,
}

fn interaction(alloc: Global, value: Value) -> Result<Interaction, AllocError> {
    let mut values = Values::none(alloc);
    values.push(value)?;
    Ok(Interaction {
        number: 1,
        name: Word::of(alloc, b"m")?,
        values,
    })
}

pub fn head(alloc: Global, received: Received) -> Result<Option<Interaction>, AllocError> {
    match received {
        Received::Nothing => Ok(None),
        Received::Number(n) => Ok(Some(interaction(alloc, Value::Int(n))?)),
        Received::Truth => Ok(Some(interaction(alloc, Value::Bool(true))?)),
    }
}
