//! Boards and passes in threads: where a value may be sent, its board may be shared, and a pass sent.
ghost use Rattle.std.specs.Prelude.{◌≡◌};

use crate::board::Board;
use crate::pass::Pass;
use crate::recorded::Recorded;
use std::thread::{Threads, join};

// Two threads share a board, each with a pass. It is not called: that it is proved shows that they may.
fn in_two_threads<V: Recorded + Send, R: Threads + Sync>(
    rt: &R,
    board: &Board<V>,
    first: Pass<V>,
    second: Pass<V>,
) -> (Pass<V>, Pass<V>)
    ensures { (result.0 ≡ first) × (result.1 ≡ second) }
{
    join(rt, || kept(board, first), || kept(board, second))
}

fn kept<V: Recorded>(_board: &Board<V>, pass: Pass<V>) -> Pass<V>
    ensures { result ≡ pass }
{
    pass
}
