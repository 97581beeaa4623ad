//! What each worker does.

ghost use Rattle.std.specs.Prelude.{◌≡◌, IfSome};
ghost use Rattle.estelle_model.specs.Jobs.{Answers};
ghost use Rattle.estelle_model_legality.specs.Jobs.{IsJob};
ghost use Rattle.turn_board.specs.Passes.{own};
ghost use Rattle.board_threads.specs.Workers.{IsFree, MayWork};
ghost use Rattle.board_runner.specs.Histories.{subject_of};
ghost use Rattle.board_runner.specs.Turns.{IsToCommit};
ghost use Rattle.board_workers.specs.Jobs.{IsSamePass, HasJob, HasWork};

use crate::gate::Gate;
use crate::news::{News, Waits};
use crate::turns::{ask, give, hand_in};
use board_runner::{RunBoard, RunPass, Work};
use board_threads::Labour;
use body_jobs::jobs_may_be_fired;
use compiled_program::CompiledProgram;
use estelle_model::{Done, Job};
use outside::{Chooser, Clock};
use situation::{Committed, World};
use std::alloc::Global;
use std::sync::Wait;
use turn_board::{Board, Pass};

/// What workers share beside the board.
#[derive(Drop)]
pub(crate) struct Crew<'p, 'q, 'g, G> {
    pub(crate) code: &'p CompiledProgram<'q>,
    pub(crate) gate: &'g G,
    pub(crate) news: News,
    pub(crate) alloc: Global,
}

// How many units a short block has at most. It takes no longer than a turn, so that turns are what is wanted, and another worker only makes
// them dearer.
const SHORT: u32 = 16;

/// What a worker was told in its last turn, and what it waits for if that is nothing to do.
#[derive(Drop)]
struct Told {
    work: Work,
    waits: Waits,
}

impl<G: Gate> Crew<'_, '_, '_, G> {
    // Computes a firing. There is no answer for want of memory.
    fn compute<R: Wait>(&self, rt: &R, job: Job) -> Option<Done>
        requires { IsJob self.now.code.now job }
        ensures { IfSome result (λ done. Answers self.now.code.now job done) }
    {
        let ticket = job.ticket;
        self.gate.enter(rt, ticket);
        jobs_may_be_fired();
        let done = self.code.fire(self.alloc, job).ok();
        self.gate.leave(rt, ticket);
        done
    }

    // Commits a firing, and goes on in the same turn. There is no answer for want of memory.
    fn go_on_behind<'a, C: Clock, H: Chooser + Drop, R: Wait>(
        &self,
        rt: &R,
        board: &RunBoard<'a, C, H>,
        pass: &mut RunPass<'a, C, H>,
        done: Done,
    ) -> Option<Told>
        requires free { IsFree board.now pass.old }
        requires its { IsToCommit (own pass.old) done }
        ensures same { IsSamePass pass.old pass.new }
        ensures has { IfSome result (λ told. HasWork (own pass.new) told.work) }
    {
        let waits = self.news.before_idling();
        let work = hand_in(rt, self.alloc, board, pass, done)?;
        Some(Told { work, waits })
    }

    // Commits a firing, and rests, unless the run has ended. There is no answer for want of memory.
    //
    // Where all others rest too, one is awake that does not, and has a turn yet. One that found this firing under way hears the bell.
    fn rest_behind<'a, C: Clock, H: Chooser + Drop, R: Wait>(
        &self,
        rt: &R,
        board: &RunBoard<'a, C, H>,
        pass: &mut RunPass<'a, C, H>,
        done: Done,
    ) -> Option<Told>
        requires free { IsFree board.now pass.old }
        requires its { IsToCommit (own pass.old) done }
        ensures same { IsSamePass pass.old pass.new }
        ensures has { IfSome result (λ told. HasWork (own pass.new) told.work) }
    {
        let waits = self.news.before_resting();
        let waits = match give(rt, self.alloc, board, pass, done)? {
            Committed::Fired => waits,
            Committed::Faulted => Waits::Nothing,
            Committed::Late(_) => Waits::Nothing,
        };
        self.news.hand_over();
        match waits {
            Waits::Nothing => self.news.wake(),
            waits => self.news.wait_for(rt, waits),
        }
        Some(Told {
            work: Work::Moved,
            waits: Waits::Nothing,
        })
    }

    // Computes a firing and commits it. There is no answer for want of memory.
    fn perform<'a, C: Clock, H: Chooser + Drop, R: Wait>(
        &self,
        rt: &R,
        board: &RunBoard<'a, C, H>,
        pass: &mut RunPass<'a, C, H>,
        job: Job,
    ) -> Option<Told>
        requires free { IsFree board.now pass.old }
        requires code { self.now.code.now ≡ subject_of (own pass.old).base }
        requires its { HasJob (own pass.old) job }
        ensures same { IsSamePass pass.old pass.new }
        ensures has { IfSome result (λ told. HasWork (own pass.new) told.work) }
    {
        // What else is pending is for another.
        self.news.call();
        let budget = job.budget;
        let done = self.compute(rt, job)?;
        let is_short = budget.saturating_sub(done.left) <= SHORT;
        if self.news.rests_behind(is_short) {
            self.rest_behind(rt, board, pass, done)
        } else {
            self.go_on_behind(rt, board, pass, done)
        }
    }

    // Asks for something to do. There is no answer for want of memory.
    fn inquire<'a, C: Clock, H: Chooser + Drop, R: Wait>(
        &self,
        rt: &R,
        board: &RunBoard<'a, C, H>,
        pass: &mut RunPass<'a, C, H>,
    ) -> Option<Told>
        requires { IsFree board.now pass.old }
        ensures same { IsSamePass pass.old pass.new }
        ensures has { IfSome result (λ told. HasWork (own pass.new) told.work) }
    {
        let waits = self.news.before_idling();
        let work = ask(rt, self.alloc, board, pass)?;
        Some(Told { work, waits })
    }

    // Where there is nothing, memory was missing: the others are told to stop.
    fn or_give_up(&self, told: Option<Told>) -> Option<Told>
        ensures { result ≡ told }
    {
        if told.is_none() {
            self.news.fail();
        }
        told
    }

    // Does what the last turn told, if the worker is to go on.
    fn go_on<'a, C: Clock, H: Chooser + Drop, R: Wait>(
        &self,
        rt: &R,
        board: &RunBoard<'a, C, H>,
        pass: &mut RunPass<'a, C, H>,
        told: Told,
    ) -> Option<Told>
        requires free { IsFree board.now pass.old }
        requires code { self.now.code.now ≡ subject_of (own pass.old).base }
        requires its { HasWork (own pass.old) told.work }
        ensures same { IsSamePass pass.old pass.new }
        ensures has { IfSome result (λ next. HasWork (own pass.new) next.work) }
    {
        if self.news.has_failed() {
            return None;
        }
        let Told { work, waits } = told;
        match work {
            Work::Job(job) => self.or_give_up(self.perform(rt, board, pass, job)),
            Work::Moved => self.or_give_up(self.inquire(rt, board, pass)),
            Work::Idle(_) => {
                self.news.leave();
                self.news.wait_for(rt, waits);
                Some(Told {
                    work: Work::Moved,
                    waits: Waits::Nothing,
                })
            }
            Work::Ended(_) => {
                self.news.tell();
                None
            }
        }
    }
}

impl<'a, C: Clock, H: Chooser + Drop, G: Gate> Labour<World<'a, C, H>> for Crew<'_, '_, '_, G> {
    ghost asks = { λ crew base. crew.code.now ≡ subject_of base };

    fn work<R: Wait>(
        &self,
        rt: &R,
        board: &Board<World<'a, C, H>>,
        pass: &mut Pass<World<'a, C, H>>,
    ) {
        self.news.wake();
        let mut told = Told {
            work: Work::Moved,
            waits: Waits::Nothing,
        };
        for _ in rt.forever() {
            match self.go_on(rt, board, pass, told) {
                Some(next) => told = next,
                None => return,
            }
        }
    }
}
