//! What workers tell each other beside the board.

use std::hint;
use std::sync::Wait;
use std::sync::atomic::{AtomicBool, AtomicU64, Ordering};

// How often a worker looks before it sleeps.
const LOOKS: u32 = 1000;

/// What a word has come to that workers wait for, and how many sleep.
#[derive(Drop)]
struct Bell {
    rung: AtomicU64,
    asleep: AtomicU64,
}

impl Bell {
    fn new() -> Bell {
        Bell {
            rung: AtomicU64::new(0),
            asleep: AtomicU64::new(0),
        }
    }

    /// How often it was rung.
    fn heard(&self) -> u64 {
        self.rung.load(Ordering::SeqCst)
    }

    fn has_sleepers(&self) -> bool {
        self.asleep.load(Ordering::SeqCst) > 0
    }

    /// Rings for all.
    fn ring(&self) {
        self.rung.fetch_add(1, Ordering::SeqCst);
        if self.has_sleepers() {
            self.rung.wake_all();
        }
    }

    /// Rings for one who sleeps. Who does not sleep yet hears it too.
    fn ring_for_one(&self) {
        self.rung.fetch_add(1, Ordering::SeqCst);
        if self.has_sleepers() {
            self.rung.wake_one();
        }
    }
}

/// How workers wait for each other, how many are awake, whether the last block was short, and whether a worker gave up.
#[derive(Drop)]
pub(crate) struct News {
    // For those that found all firings with others.
    idle: Bell,
    // For those that rest, since blocks are short.
    resting: Bell,
    // How many have begun, and neither rest nor wait.
    awake: AtomicU64,
    // Whether one was called for what is pending, and has not come yet.
    is_called: AtomicBool,
    is_short: AtomicBool,
    failed: AtomicBool,
}

/// What a worker waits for, and how often that bell had been rung.
#[derive(Clone, Copy)]
pub(crate) enum Waits {
    Nothing,
    Idle(u64),
    Resting(u64),
}

impl News {
    pub(crate) fn new() -> News {
        News {
            idle: Bell::new(),
            resting: Bell::new(),
            awake: AtomicU64::new(0),
            is_called: AtomicBool::new(false),
            is_short: AtomicBool::new(false),
            failed: AtomicBool::new(false),
        }
    }

    /// What a worker waits for that will find all firings with others, in a turn behind this.
    pub(crate) fn before_idling(&self) -> Waits {
        Waits::Idle(self.idle.heard())
    }

    /// What a worker waits for that will rest, behind a turn that comes behind this.
    pub(crate) fn before_resting(&self) -> Waits {
        Waits::Resting(self.resting.heard())
    }

    /// Whether a worker gave up.
    pub(crate) fn has_failed(&self) -> bool {
        self.failed.load(Ordering::SeqCst)
    }

    /// A worker begins, or goes on.
    pub(crate) fn wake(&self) {
        self.awake.fetch_add(1, Ordering::SeqCst);
    }

    /// It is about to wait.
    pub(crate) fn leave(&self) {
        self.awake.fetch_sub(1, Ordering::SeqCst);
    }

    /// A worker has computed a block that was short or not. The answer is whether it is to rest, which it does behind a short one, unless it
    /// is the only one that is awake.
    pub(crate) fn rests_behind(&self, is_short: bool) -> bool {
        self.is_short.store(is_short, Ordering::SeqCst);
        if !is_short {
            return false;
        }
        if self.awake.fetch_sub(1, Ordering::SeqCst) > 1 {
            return true;
        }
        self.wake();
        false
    }

    /// The run has ended.
    pub(crate) fn tell(&self) {
        self.idle.ring();
        self.resting.ring();
    }

    /// A worker rests, and what it committed may leave something to do for one that found nothing.
    pub(crate) fn hand_over(&self) {
        self.idle.ring_for_one();
    }

    /// Calls one who sleeps, if there is one, unless blocks are short, or one was called who has not come yet.
    pub(crate) fn call(&self) {
        let is_some = self.idle.has_sleepers() || self.resting.has_sleepers();
        if !is_some || self.is_short.load(Ordering::SeqCst) {
            return;
        }
        if self.is_called.swap(true, Ordering::SeqCst) {
            return;
        }
        if self.idle.has_sleepers() {
            self.idle.ring_for_one();
        } else {
            self.resting.ring_for_one();
        }
    }

    /// A worker gives up, for want of memory.
    pub(crate) fn fail(&self) {
        self.failed.store(true, Ordering::SeqCst);
        self.tell();
    }

    /// Waits for what a worker waits for, or until one gave up. Then the worker is awake.
    pub(crate) fn wait_for<R: Wait>(&self, rt: &R, waits: Waits) {
        match waits {
            Waits::Nothing => return,
            Waits::Idle(heard) => self.wait_at(rt, &self.idle, heard),
            Waits::Resting(heard) => self.wait_at(rt, &self.resting, heard),
        }
        self.is_called.store(false, Ordering::SeqCst);
        self.wake();
    }

    fn has_come(&self, bell: &Bell, heard: u64) -> bool {
        bell.heard() != heard || self.has_failed()
    }

    // Waits until the bell is rung, or a worker gave up.
    //
    // Who rings raises `rung` before it looks who sleeps, and who sleeps says so before it looks at `rung`: one of the two sees the other, and
    // the machine begins no sleep where `rung` has changed. A worker that gives up says so first: whoever heard its bell finds that.
    fn wait_at<R: Wait>(&self, rt: &R, bell: &Bell, heard: u64) {
        for _ in 0..LOOKS {
            if self.has_come(bell, heard) {
                return;
            }
            hint::spin_loop();
        }
        bell.asleep.fetch_add(1, Ordering::SeqCst);
        self.is_called.store(false, Ordering::SeqCst);
        for _ in rt.forever() {
            if self.has_come(bell, heard) {
                break;
            }
            bell.rung.park(rt, (heard % (1 << 32)) as u32);
        }
        bell.asleep.fetch_sub(1, Ordering::SeqCst);
    }
}
