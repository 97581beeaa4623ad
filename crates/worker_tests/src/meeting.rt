//! Two bodies at once.

use crate::calls::call;
use board_workers::Gate;
use estelle_cli::Status;
use std::hint;
use std::sync::Wait;
use std::sync::atomic::{AtomicBool, AtomicU64, Ordering};
use std::test::Fail;
use test_texts::WORKED;

/// How often the first firing looks whether the second has come.
const LOOKS: u32 = 10_000_000;

/// It holds the firing with the first ticket until another one has come.
#[derive(Drop)]
struct Meeting {
    entered: AtomicU64,
    left: AtomicU64,
    /// Whether one left before both had come.
    was_alone: AtomicBool,
}

impl Gate for Meeting {
    fn enter<R: Wait>(&self, _rt: &R, ticket: u64) {
        self.entered.fetch_add(1, Ordering::SeqCst);
        if ticket == 1 {
            for _ in 0..LOOKS {
                if self.entered.load(Ordering::SeqCst) > 1 {
                    return;
                }
                hint::spin_loop();
            }
        }
    }

    fn leave<R: Wait>(&self, _rt: &R, _ticket: u64) {
        if self.entered.load(Ordering::SeqCst) < 2 {
            self.was_alone.store(true, Ordering::SeqCst);
        }
        self.left.fetch_add(1, Ordering::SeqCst);
    }
}

/// Which of two traces the fires are in: of `/1` first, or of `/2`.
const TRACES: [&str; 2] = [
    "estelle trace 1\nstart\nselect / now 0 takes /1:1 /2:1\nfire /1 1\nfire /2 1\nselect / now 0 takes -\nend deadlock\n",
    "estelle trace 1\nstart\nselect / now 0 takes /1:1 /2:1\nfire /2 1\nfire /1 1\nselect / now 0 takes -\nend deadlock\n",
];

#[test]
fn siblings_meet(rt: HostRuntime) -> Result<(), Fail> {
    let Some(cells) = WORKED.iter().find(|it| it.name == "two_cells") else {
        return Err(Fail::new("no text"));
    };
    let gate = Meeting {
        entered: AtomicU64::new(0),
        left: AtomicU64::new(0),
        was_alone: AtomicBool::new(false),
    };
    let words = ["run", "--workers", "2"];
    let Ok(answer) = call(&rt, rt.alloc(), &words, cells.text.as_bytes(), &gate) else {
        return Err(Fail::new("memory"));
    };
    assert!(rt; answer.status == Status::Done);
    assert!(rt; answer.err.is_empty());
    assert!(rt;
        TRACES
            .iter()
            .any(|trace| trace.as_bytes() == answer.out.as_slice())
    );
    assert!(rt; !gate.was_alone.load(Ordering::SeqCst));
    assert_eq!(rt; gate.entered.load(Ordering::SeqCst), 2);
    assert_eq!(rt; gate.left.load(Ordering::SeqCst), 2);
    Ok(())
}
