//! Workers that write at once.
ghost use Rattle.std.specs.Prelude.{◌≡◌};
ghost use Rattle.turn_board.specs.Passes.{number_of};
ghost use Rattle.board_threads.specs.Workers.{IsFree, MayWork};

use crate::log::Log;
use crate::two_threads::{LINES, has_all};
use crate::writing::write;
use board_threads::{Labour, work_on};
use std::sync::Wait;
use std::test::Fail;
use turn_board::{Board, Pass};

const WORKERS: u32 = 3;

// So many lines a worker.
#[derive(Drop)]
struct Writer {
    lines: u64,
}

// Writes 0, 1, .. in as many turns.
fn write_lines<'a, R: Wait>(rt: &R, board: &Board<Log<'a>>, pass: &mut Pass<Log<'a>>, count: u64)
    requires { IsFree board.now pass.old }
    ensures free { IsFree board.now pass.new }
    ensures number { number_of pass.new ≡ number_of pass.old }
{
    for what in 0..count {
        if write(rt, board, pass, what).is_err() {
            break;
        }
    }
}

impl<'a> Labour<Log<'a>> for Writer {
    // It writes on no log but that with this title.
    ghost asks = { λ writer title. title ≡ 7 };

    fn work<R: Wait>(&self, rt: &R, board: &Board<Log<'a>>, pass: &mut Pass<Log<'a>>) {
        write_lines(rt, board, pass, self.lines);
    }
}

#[test]
fn all_lines_of_workers(rt: HostRuntime) -> Result<(), Fail> {
    let title = 7;
    let log = Log::none(rt.alloc(), &title);
    let writer = Writer { lines: LINES };
    let Ok(log) = work_on(&rt, rt.alloc(), log, WORKERS, &writer) else {
        return Err(Fail::new("memory"));
    };
    assert_eq!(rt; *log.title, 7);
    assert_eq!(rt; log.lines.len() as u64, u64::from(WORKERS) * LINES);
    for by in 1..=WORKERS {
        assert!(rt; has_all(log.lines.as_slice(), by), "{by}");
    }
    Ok(())
}
