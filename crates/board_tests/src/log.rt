//! A log with a title that it borrows.
ghost use Rattle.std.specs.Prelude.{◌≡◌, [], ◌∷◌, ◌++◌, OnOk, OnErr};

use std::alloc::{AllocError, Global};
use turn_board::Recorded;

/// A line, and who wrote it.
#[derive(Drop, Clone, Copy)]
pub struct Line {
    pub by: u32,
    pub what: u64,
}

#[derive(Drop)]
pub struct Log<'a> {
    pub title: &'a u64,
    pub lines: Vec<Line>,
}

impl<'a> Recorded for Log<'a> {
    type Base = u64;

    type Entry = Line;

    ghost base = { λ log. log.title.now };

    ghost entries = { λ log. log.lines.items };

    ghost writer = { λ line. line.by };

    fn count(&self) -> u64 {
        self.lines.len() as u64
    }
}

impl<'a> Log<'a> {
    pub fn none(alloc: Global, title: &'a u64) -> Log<'a>
        ensures title { result.title.now ≡ title.now }
        ensures lines { result.lines.items ≡ [] }
    {
        Log {
            title,
            lines: Vec::new(alloc),
        }
    }

    /// One more line.
    pub fn write(&mut self, by: u32, what: u64) -> Result<(), AllocError>
        ensures title { self.new.title.now ≡ self.old.title.now }
        ensures ok { OnOk result (self.new.lines.items ≡ self.old.lines.items ++ record { by = by; what = what } ∷ []) }
        ensures err { OnErr result (self.new.lines.items ≡ self.old.lines.items) }
    {
        self.lines.push(Line { by, what })?;
        Ok(())
    }
}
