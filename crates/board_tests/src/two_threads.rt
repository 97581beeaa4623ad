//! Two threads that write at once.
ghost use Rattle.std.specs.Prelude.{◌≡◌, []};

use crate::log::{Line, Log};
use crate::writing::{Hand, close_two, take_two, write_all};
use std::alloc::Global;
use std::sync::Wait;
use std::test::Fail;
use std::thread::{Threads, join};
use turn_board::Board;

pub(crate) const LINES: u64 = 2000;

fn in_two<'a, R: Threads + Wait + Sync>(
    rt: &R,
    alloc: Global,
    log: Log<'a>,
) -> Result<Log<'a>, Log<'a>>
    requires { log.lines.items ≡ [] }
{
    let (board, mut passes) = Board::set_up(alloc, log, 2)?;
    let (first, second) = take_two(&board, &mut passes);
    let first = Hand {
        board: &board,
        pass: first,
    };
    let second = Hand {
        board: &board,
        pass: second,
    };
    let (first, second) = join(
        rt,
        || write_all(rt, first, LINES),
        || write_all(rt, second, LINES),
    );
    Ok(close_two(board, passes, first, second))
}

// This writer has all its lines, 0, 1, .. in order.
pub(crate) fn has_all(lines: &[Line], by: u32) -> bool {
    let count = lines.iter().filter(|line| line.by == by).count();
    let mut own = lines.iter().filter(|line| line.by == by).enumerate();
    count as u64 == LINES && own.all(|(place, line)| line.what == place as u64)
}

#[test]
fn no_line_is_lost(rt: HostRuntime) -> Result<(), Fail> {
    let title = 7;
    let Ok(log) = in_two(&rt, rt.alloc(), Log::none(rt.alloc(), &title)) else {
        return Err(Fail::new("memory"));
    };
    assert_eq!(rt; log.lines.len() as u64, 2 * LINES);
    assert!(rt; has_all(log.lines.as_slice(), 1));
    assert!(rt; has_all(log.lines.as_slice(), 2));
    Ok(())
}
