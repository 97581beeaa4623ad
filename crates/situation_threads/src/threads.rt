//! Worlds in threads: where its chooser and its clock may be sent, a world may, with a reference to its program.
ghost use Rattle.std.specs.Prelude.{◌≡◌};

use compiled_program::CompiledProgram;
use outside::{Chooser, Clock};
use situation::World;
use std::thread::{Threads, join};

// Two threads have a world each, and read one program. It is not called: that it is proved shows that they may.
fn worlds_in_two_threads<
    'a,
    'b,
    C: Clock + Drop + Send,
    H: Chooser + Drop + Send,
    R: Threads + Sync,
>(
    rt: &R,
    program: &'b CompiledProgram<'a>,
    first: World<'a, C, H>,
    second: World<'a, C, H>,
) -> (World<'a, C, H>, World<'a, C, H>)
    ensures { (result.0 ≡ first.entry) × (result.1 ≡ second.entry) }
{
    in_two_threads(rt, program, first, second)
}

// Closures over worlds themselves take more steps than the check of one function may: here they are of any types.
fn in_two_threads<P: Sync, V: Send + Drop, R: Threads + Sync>(
    rt: &R,
    program: &P,
    first: V,
    second: V,
) -> (V, V)
    ensures { (result.0 ≡ first) × (result.1 ≡ second) }
{
    join(rt, || kept(program, first), || kept(program, second))
}

fn kept<P, V>(_program: &P, value: V) -> V
    ensures { result ≡ value }
{
    value
}
