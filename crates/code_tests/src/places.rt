//! The units of a code by their places.

use crate::units::{Table, body, instrs, one, unit};
use body_code::{Code, CodeUnit, Entry, Heading, Instr, Instrs, Shared};
use estelle_tree::{Items, Sequence};
use std::alloc::{AllocError, Global};
use std::test::Fail;

/// A guard that is one instruction.
fn guard(alloc: Global, trans: u32, instr: Instr) -> Result<CodeUnit, AllocError> {
    Ok(unit(Heading::Guard { trans }, one(alloc, instr)?))
}

/// Two bodies, each with a guard; the second body has one twice.
fn two_bodies(alloc: Global) -> Result<Code, AllocError> {
    let mut code = Code::none(alloc);
    code.push(body(alloc, 0, b"one")?)?;
    code.push(guard(alloc, 1, Instr::Load)?)?;
    code.push(body(alloc, 1, b"two")?)?;
    code.push(guard(alloc, 1, Instr::Neg)?)?;
    code.push(guard(alloc, 1, Instr::Odd)?)?;
    Ok(code)
}

fn first_instr(code: &Code, body: u32, entry: Entry) -> Option<&Instr> {
    match code.unit(body, entry) {
        None => None,
        Some(unit) => unit.instrs.get(0),
    }
}

// The first unit of the body that is asked for; none where there is none.
#[test]
fn units_by_place(rt: HostRuntime) -> Result<(), Fail> {
    let code = two_bodies(rt.alloc())?;
    assert!(rt; code.items().len() == 5);
    assert!(rt; matches!(first_instr(&code, 0, Entry::Guard(1)), Some(Instr::Load)));
    assert!(rt; matches!(first_instr(&code, 1, Entry::Guard(1)), Some(Instr::Neg)));
    assert!(rt; first_instr(&code, 1, Entry::Delay(1)).is_none());
    assert!(rt; first_instr(&code, 2, Entry::Guard(1)).is_none());
    Ok(())
}

/// Puts a unit in the place of another, if there is one.
fn put(code: &mut Code, at: usize, unit: CodeUnit) -> bool {
    if at < code.items().len() {
        code.put_at(at, unit);
        return true;
    }
    false
}

// The same behind a change, which makes another unit the first.
#[test]
fn units_behind_a_change(rt: HostRuntime) -> Result<(), Fail> {
    let mut code = two_bodies(rt.alloc())?;
    assert!(rt; put(&mut code, 3, guard(rt.alloc(), 2, Instr::Abs)?));
    assert!(rt; matches!(first_instr(&code, 1, Entry::Guard(1)), Some(Instr::Odd)));
    assert!(rt; matches!(first_instr(&code, 1, Entry::Guard(2)), Some(Instr::Abs)));
    Ok(())
}

// Instructions of two units that end alike.
#[test]
fn instructions_with_a_shared_end(rt: HostRuntime) -> Result<(), Fail> {
    let alloc = rt.alloc();
    let end = Shared::of(alloc, instrs(alloc, Table::Zeroed)?)?;
    let short = Instrs::before(Items::new(alloc), end.share()?);
    let long = Instrs::before(one(alloc, Instr::Neg)?, end);
    assert!(rt; short.len() == 4 && long.len() == 5);
    assert!(rt; matches!(short.get(3), Some(Instr::Ret)));
    assert!(rt; matches!(long.get(0), Some(Instr::Neg)));
    assert!(rt; matches!(long.get(4), Some(Instr::Ret)));
    assert!(rt; long.get(5).is_none());
    assert!(rt; Instrs::none(alloc).len() == 0);
    Ok(())
}
