//! Codes in threads: a code may be sent to another one, and shared by several.

ghost use Rattle.std.specs.Prelude.{◌≡◌};

use crate::code::Code;
use std::thread::{Threads, join};

// Two threads share a code, and each has one of its own. It is not called: that it is proved shows that they may.
fn in_two_threads<R: Threads + Sync>(
    rt: &R,
    shared: &Code,
    first: Code,
    second: Code,
) -> (Code, Code)
    ensures { (result.0 ≡ first) × (result.1 ≡ second) }
{
    join(rt, || kept(shared, first), || kept(shared, second))
}

fn kept(_shared: &Code, code: Code) -> Code
    ensures { result ≡ code }
{
    code
}
