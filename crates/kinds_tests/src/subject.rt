//! The specification whose bodies have codes.

use crate::codes::Of::{Block, Body, Delay, Guard, Initialize};
use crate::codes::Op::{Push, Ret, True};
use crate::codes::{Op, Row, code};
use body_kinds_checker::is_kinded;
use body_program::Program;
use body_program_numbers::Numbering;
use spec_accept::Checked;
use std::alloc::{AllocError, Global};
use test_texts::accepted;

/// Its blocks and clauses are there for their forms: codes say what they do.
const TEXT: &str = "specification s systemprocess;
channel c(a, b); by a, b: m(i: integer);
module kid process (x: integer); ip p: c(b); export u: boolean; end;
body inner for kid;
var k: integer;
initialize begin k := x end;
trans begin k := 1 end;
end;
modvar x: kid;
var n: integer;
function g(i: integer): integer; begin g := i end;
procedure h(var i: integer); begin i := n end;
ip q: c(a);
state go;
initialize to go begin n := 0 end;
trans
from go to go begin n := 1 end;
from go to go provided n < 2 begin n := 1 end;
from go to go delay (n, 5) begin n := 1 end;
from go to go when q.m begin n := i end;
end.
";

/// A unit for each that the specification asks for.
pub const ASKED: &[Row] = &[
    (Body(0), &[], &[]),
    (Initialize, &[], &[Ret]),
    (Guard(1), &[], &[True, Ret]),
    (Block(1), &[], &[Ret]),
    (Guard(2), &[], &[True, Ret]),
    (Block(2), &[], &[Ret]),
    (Guard(3), &[], &[True, Ret]),
    (Delay(3), &[], &[Push(1), Push(5), Ret]),
    (Block(3), &[], &[Ret]),
    (Guard(4), &[false], &[True, Ret]),
    (Block(4), &[false], &[Ret]),
    (Body(1), &[], &[]),
    (Guard(1), &[], &[True, Ret]),
    (Block(1), &[], &[Ret]),
];

fn checked_kinds(
    alloc: Global,
    checked: &Checked,
    rows: &[Row],
    others: &[Row],
) -> Result<bool, AllocError> {
    let program = Program::new(alloc, &checked.spec, &checked.names)?;
    let numbering = Numbering::new(alloc, &checked.spec, &program)?;
    let code = code(alloc, rows, others)?;
    is_kinded(alloc, &numbering, &code)
}

/// Whether the code of these units, and of others behind them, is of good kinds.
pub fn are_all_kinded(alloc: Global, rows: &[Row], others: &[Row]) -> Result<bool, AllocError> {
    match accepted(alloc, TEXT.as_bytes()) {
        None => Ok(false),
        Some(checked) => checked_kinds(alloc, &checked, rows, others),
    }
}

/// The same with those that are asked for behind them; of two at a place the first one counts.
pub fn are_kinded(alloc: Global, rows: &[Row]) -> Result<bool, AllocError> {
    are_all_kinded(alloc, rows, ASKED)
}

/// The same where the first transition's block has these instructions.
pub fn is_block_kinded(alloc: Global, ops: &'static [Op]) -> Result<bool, AllocError> {
    are_kinded(alloc, &[(Body(0), &[], &[]), (Block(1), &[], ops)])
}
