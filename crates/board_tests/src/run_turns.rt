//! Turns of two passes at a run, on one thread.

ghost use Rattle.std.specs.Prelude.{◌≡◌, All, IfSome, IsTrue};
ghost use Rattle.estelle_model.specs.Jobs.{Answers};
ghost use Rattle.estelle_model_legality.specs.Jobs.{IsJob};
ghost use Rattle.turn_board.specs.Passes.{own};
ghost use Rattle.board_threads.specs.Workers.{IsFree};
ghost use Rattle.board_runner.specs.Histories.{subject_of};
ghost use Rattle.board_runner.specs.Turns.{IsToCommit};
ghost use Rattle.board_workers.specs.Jobs.{IsSamePass, HasJob, HasWork};

use crate::writing::{close_two, take_two};
use accepted_program::AcceptedProgram;
use board_runner::{RunBoard, RunPass, Work, commit, next};
use body_jobs::jobs_may_be_fired;
use compiled_program::CompiledProgram;
use estelle_model::{Done, End, Job};
use outside::{FirstChooser, VirtualClock};
use situation::{Committed, Limits, World};
use std::alloc::Global;
use std::sync::Wait;
use std::test::Fail;
use test_texts::{WORKED, accepted};
use turn_board::Board;

type CellsWorld<'a> = World<'a, VirtualClock, FirstChooser>;

type CellsBoard<'a> = RunBoard<'a, VirtualClock, FirstChooser>;

type CellsPass<'a> = RunPass<'a, VirtualClock, FirstChooser>;

// A turn that gives something.
fn ask<'a, R: Wait>(
    rt: &R,
    alloc: Global,
    board: &CellsBoard<'a>,
    pass: &mut CellsPass<'a>,
) -> Option<Work>
    requires { IsFree board.now pass.old }
    ensures same { IsSamePass pass.old pass.new }
    ensures has { IfSome result (HasWork (own pass.new)) }
{
    next(rt, alloc, board, pass).ok()
}

// Whether a turn of a pass that has a job finds that all firings are under way, of which this ticket is the first.
fn finds_others<'a, R: Wait>(
    rt: &R,
    alloc: Global,
    board: &CellsBoard<'a>,
    pass: &mut CellsPass<'a>,
    job: &Job,
    first: u64,
) -> bool
    requires free { IsFree board.now pass.old }
    requires its { HasJob (own pass.old) job.now }
    ensures same { IsSamePass pass.old pass.new }
    ensures still { IsTrue result → HasJob (own pass.new) job.now }
{
    match next(rt, alloc, board, pass) {
        Ok(Work::Idle(ticket)) => ticket == first,
        _ => false,
    }
}

fn compute(alloc: Global, code: &CompiledProgram, job: Job) -> Option<Done>
    requires { IsJob code.now job }
    ensures { IfSome result (λ done. Answers code.now job done) }
{
    jobs_may_be_fired();
    code.fire(alloc, job).ok()
}

// Whether a job is computed and committed in time.
fn commits<'a, R: Wait>(
    rt: &R,
    alloc: Global,
    board: &CellsBoard<'a>,
    pass: &mut CellsPass<'a>,
    code: &CompiledProgram,
    job: Job,
) -> bool
    requires free { IsFree board.now pass.old }
    requires code { code.now ≡ subject_of (own pass.old).base }
    requires its { HasJob (own pass.old) job }
    ensures same { IsSamePass pass.old pass.new }
{
    let Some(done) = compute(alloc, code, job) else {
        return false;
    };
    match commit(rt, alloc, board, pass, done) {
        Ok(Committed::Fired) => true,
        _ => false,
    }
}

// Whether the turns of two passes give what they ought: both take one of the two firings that are pending, and the second commits first.
fn goes<'a, R: Wait>(
    rt: &R,
    alloc: Global,
    board: &CellsBoard<'a>,
    a: &mut CellsPass<'a>,
    b: &mut CellsPass<'a>,
    code: &CompiledProgram,
) -> bool
    requires free { IsFree board.now a.old × IsFree board.now b.old }
    requires code { (code.now ≡ subject_of (own a.old).base) × (code.now ≡ subject_of (own b.old).base) }
    ensures same { IsSamePass a.old a.new × IsSamePass b.old b.new }
{
    let Some(Work::Moved) = ask(rt, alloc, board, a) else {
        return false;
    };
    let Some(Work::Job(first)) = ask(rt, alloc, board, a) else {
        return false;
    };
    let Some(Work::Job(second)) = ask(rt, alloc, board, b) else {
        return false;
    };
    if first.ticket != 1 || second.ticket != 2 {
        return false;
    }
    if !finds_others(rt, alloc, board, a, &first, 1) {
        return false;
    }
    if !commits(rt, alloc, board, b, code, second) {
        return false;
    }
    let Some(Work::Idle(1)) = ask(rt, alloc, board, b) else {
        return false;
    };
    if !commits(rt, alloc, board, a, code, first) {
        return false;
    }
    let Some(Work::Moved) = ask(rt, alloc, board, a) else {
        return false;
    };
    let Some(Work::Ended(End::Dead)) = ask(rt, alloc, board, b) else {
        return false;
    };
    match ask(rt, alloc, board, a) {
        Some(Work::Ended(End::Dead)) => true,
        _ => false,
    }
}

// A board round the world, with two passes that take these turns. The answer is whether they gave what they ought.
fn in_two_passes<'a, R: Wait>(
    rt: &R,
    alloc: Global,
    code: &CompiledProgram,
    world: CellsWorld<'a>,
) -> Result<(CellsWorld<'a>, bool), CellsWorld<'a>>
    requires code { code.now ≡ world.subject }
    requires new { All (λ e. e.by ≡ 0) world.history.entries }
{
    let (board, mut passes) = Board::set_up(alloc, world, 2)?;
    let (mut first, mut second) = take_two(&board, &mut passes);
    let is_so = goes(rt, alloc, &board, &mut first, &mut second, code);
    Ok((close_two(board, passes, first, second), is_so))
}

// A world of two cells.
fn begun<'a>(alloc: Global, code: &'a CompiledProgram<'a>) -> Option<CellsWorld<'a>>
    ensures code { IfSome result (λ world. world.subject ≡ code.now) }
    ensures new { IfSome result (λ world. All (λ e. e.by ≡ 0) world.history.entries) }
{
    let limits = Limits {
        turns: 10,
        budget: 100,
    };
    let clock = VirtualClock { moment: 0 };
    match World::begin(alloc, code, limits, clock, FirstChooser) {
        Ok(world) => Some(world),
        Err(_) => None,
    }
}

// Whether two passes at a world of two cells give what they ought, and the run ends.
fn passes_go<R: Wait>(rt: &R, alloc: Global, code: &CompiledProgram) -> bool {
    let Some(world) = begun(alloc, code) else {
        return false;
    };
    match in_two_passes(rt, alloc, code, world) {
        Ok((world, is_so)) => is_so && world.end() == Some(End::Dead),
        Err(_) => false,
    }
}

#[test]
fn two_passes(rt: HostRuntime) -> Result<(), Fail> {
    let Some(cells) = WORKED.iter().find(|it| it.name == "two_cells") else {
        return Err(Fail::new("no text"));
    };
    let alloc = rt.alloc();
    let Some(checked) = accepted(alloc, cells.text.as_bytes()) else {
        return Err(Fail::new("refused"));
    };
    let Ok(program) = AcceptedProgram::new(alloc, &checked) else {
        return Err(Fail::new("memory"));
    };
    let Ok(code) = CompiledProgram::new(alloc, &checked, &program) else {
        return Err(Fail::new("memory"));
    };
    assert!(rt; passes_go(&rt, alloc, &code));
    Ok(())
}
