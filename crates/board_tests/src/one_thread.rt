//! Two passes that take turns on one thread.
ghost use Rattle.std.specs.Prelude.{◌≡◌, []};
ghost use Rattle.turn_board.specs.Passes.{board_of, number_of, IsOf, IsIdle};

use crate::log::Log;
use crate::writing::{Told, close_two, take_two, write};
use std::alloc::{AllocError, Global};
use std::sync::Wait;
use std::test::Fail;
use turn_board::{Board, Pass};

// Turns of the first, of the second, of the second again and of the first.
fn four_turns<'a, R: Wait>(
    rt: &R,
    board: &Board<Log<'a>>,
    first: &mut Pass<Log<'a>>,
    second: &mut Pass<Log<'a>>,
) -> Result<[Told; 4], AllocError>
    requires first { IsOf board.now first.old × IsIdle first.old }
    requires second { IsOf board.now second.old × IsIdle second.old }
    ensures first { (board_of first.new ≡ board_of first.old) × IsIdle first.new × (number_of first.new ≡ number_of first.old) }
    ensures second { (board_of second.new ≡ board_of second.old) × IsIdle second.new × (number_of second.new ≡ number_of second.old) }
{
    let a = write(rt, board, first, 10)?;
    let b = write(rt, board, second, 20)?;
    let c = write(rt, board, second, 21)?;
    let d = write(rt, board, first, 11)?;
    Ok([a, b, c, d])
}

fn in_turns<'a, R: Wait>(
    rt: &R,
    alloc: Global,
    log: Log<'a>,
) -> Result<(Log<'a>, Result<[Told; 4], AllocError>), Log<'a>>
    requires { log.lines.items ≡ [] }
{
    let (board, mut passes) = Board::set_up(alloc, log, 2)?;
    let (mut first, mut second) = take_two(&board, &mut passes);
    let told = four_turns(rt, &board, &mut first, &mut second);
    Ok((close_two(board, passes, first, second), told))
}

#[test]
fn turns_in_order(rt: HostRuntime) -> Result<(), Fail> {
    let title = 7;
    let Ok((log, told)) = in_turns(&rt, rt.alloc(), Log::none(rt.alloc(), &title)) else {
        return Err(Fail::new("memory"));
    };
    for (place, turn) in told?.iter().enumerate() {
        assert_eq!(rt; turn.ticket, place as u64);
        assert_eq!(rt; turn.found, place);
    }
    assert_eq!(rt; *log.title, 7);
    let wanted = [(1, 10), (2, 20), (2, 21), (1, 11)];
    assert_eq!(rt; log.lines.len(), 4);
    for (line, wanted) in log.lines.iter().zip(wanted) {
        assert_eq!(rt; (line.by, line.what), wanted);
    }
    Ok(())
}
