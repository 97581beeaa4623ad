ghost use Rattle.std.specs.Prelude.{◌≡◌, ◌<◌, ◌≤◌, ◌+◌, ◌-◌, ◌↔◌, Some, IfOk, IsOk, IsErr, Contains, drop, length, min, vec_len, vec_capacity};
ghost use Rattle.std.specs.Io.{ReadsAtMost};
ghost use Rattle.std.specs.Io.KnownBytes.{ReadConsumes, WriteAppends};
ghost use Rattle.outside.specs.Counts.{HasCause, CountsFault, next_count};

use crate::source::copy_front;
use crate::{Failed, Sink, Source};

/// A source that gives at most `piece` bytes a call, and fails at the calls listed in `failing`,
/// counted from 1.
#[derive(Drop)]
pub struct MemorySource {
    pub bytes: Vec<u8>,
    /// How many of them have been read.
    pub at: usize,
    pub piece: usize,
    pub failing: Vec<u64>,
    pub calls: u64,
    pub faults: u64,
    ghost within_bytes: { at ≤ vec_len bytes },
    ghost positive_piece: { 0 < piece },
}

impl Source for MemorySource {
    ghost left = { λ source. Some (drop source.at source.bytes.items) };

    ghost faults = { λ source. source.faults };

    fn read(&mut self, buf: &mut [u8]) -> Result<usize, Failed>
        requires { 0 < length buf.old }
        ensures bound { ReadsAtMost result buf.new }
        ensures bytes { ReadConsumes (Some (drop self.old.at self.old.bytes.items))
            (Some (drop self.new.at self.new.bytes.items)) result buf.new }
        ensures cause { HasCause self.old.faults self.new.faults result }

        // It fails at the listed calls, and else gives a whole piece where so much is left.
        ensures calls { self.new.calls ≡ next_count self.old.calls }
        ensures listed { IsErr result ↔ Contains self.old.failing.items self.new.calls }
        ensures piece { IfOk result (λ n.
            n ≡ min (min (vec_len self.old.bytes - self.old.at) self.old.piece) (length buf.old)) }
        ensures count { CountsFault self.old.faults self.new.faults result }
        ensures bytes_kept { self.new.bytes ≡ self.old.bytes }
        ensures piece_kept { self.new.piece ≡ self.old.piece }
        ensures failing_kept { self.new.failing ≡ self.old.failing }
    {
        self.calls = self.calls.saturating_add(1);
        if self.failing.contains(&self.calls) {
            self.faults = self.faults.saturating_add(1);
            return Err(Failed);
        }
        let most = self.piece.min(self.bytes.len() - self.at);
        let count = copy_front(&self.bytes[self.at..self.at + most], buf);
        self.at += count;
        Ok(count)
    }
}

/// A sink that takes at most `piece` bytes a call, and fails at the calls listed in `failing`,
/// counted from 1. A call after which it would hold more than `room` bytes takes none and is a fault.
#[derive(Drop)]
pub struct MemorySink {
    pub held: Vec<u8>,
    pub piece: usize,
    pub failing: Vec<u64>,
    pub calls: u64,
    pub room: usize,
    pub faults: u64,
    ghost has_room: { room ≤ vec_capacity held },
    ghost positive_piece: { 0 < piece },
}

impl Sink for MemorySink {
    ghost held = { λ sink. Some sink.held.items };

    ghost faults = { λ sink. sink.faults };

    fn write(&mut self, bytes: &[u8]) -> Result<usize, Failed>
        requires { 0 < length bytes.now }
        ensures bound { IfOk result (λ n. (0 < n) × (n ≤ length bytes.now)) }
        ensures bytes { WriteAppends (Some self.old.held.items) (Some self.new.held.items)
            result bytes.now }
        ensures cause { HasCause self.old.faults self.new.faults result }

        // It fails at the listed calls and where room is short, and else takes a whole piece.
        ensures calls { self.new.calls ≡ next_count self.old.calls }
        ensures listed { Contains self.old.failing.items self.new.calls → IsErr result }
        ensures full { self.old.room < vec_len self.old.held + min (length bytes.now) self.old.piece
            → IsErr result }
        ensures ok { ¬ Contains self.old.failing.items self.new.calls
            → vec_len self.old.held + min (length bytes.now) self.old.piece ≤ self.old.room
            → IsOk result }
        ensures piece { IfOk result (λ n. n ≡ min (length bytes.now) self.old.piece) }
        ensures count { CountsFault self.old.faults self.new.faults result }
        ensures piece_kept { self.new.piece ≡ self.old.piece }
        ensures failing_kept { self.new.failing ≡ self.old.failing }
        ensures room_kept { self.new.room ≡ self.old.room }
    {
        self.calls = self.calls.saturating_add(1);
        let count = bytes.len().min(self.piece);
        if self.failing.contains(&self.calls) {
            self.faults = self.faults.saturating_add(1);
            return Err(Failed);
        }
        if self.room.saturating_sub(self.held.len()) < count {
            self.faults = self.faults.saturating_add(1);
            return Err(Failed);
        }
        self.held.extend_from_slice(&bytes[..count]).unwrap();
        Ok(count)
    }
}
