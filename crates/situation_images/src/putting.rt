//! What is done, put into the shared state in a situation that a run leads to.

ghost use Rattle.estelle_model.specs.Firing.{bare};
ghost use Rattle.situation_images.specs.Putting.{MayBePut, IsPutIn};

use body_program::Program;
use effect_log::{Disciplines, Notes, Shared, apply};
use estelle_model::Done;

/// What a run did so far, and what else says to which situation that leads. It serves contracts alone.
pub trait RunSoFar {
    ghost use Rattle.estelle_model.specs.Subject.{Subject};
    ghost use Rattle.estelle_model.specs.Situation.{Situation};

    ghost leads_to: { Self → Subject → Situation };
}

/// Nothing, before the initialization.
#[derive(Drop)]
struct Nothing;

impl RunSoFar for Nothing {
    ghost leads_to = { λ _ s. bare s };
}

/// What a program says of queues, in a run.
#[derive(Drop)]
struct Queueing<'a, R> {
    program: &'a Program<'a>,
    so_far: &'a R,
}

impl<R: RunSoFar> Disciplines for Queueing<'_, R> {
    ghost subject = { λ queueing. queueing.program.now };

    fn is_common(&self, body: u32, ip: u32) -> bool {
        self.program.is_common(body, ip)
    }

    fn received_at(&self, body: u32, trans: u32) -> Option<u32> {
        self.program.received_at(body, trans)
    }
}

impl<R: RunSoFar> RunSoFar for Queueing<'_, R> {
    ghost leads_to = { λ queueing s. R.leads_to queueing.so_far.now s };
}

fn put_by<Q: Disciplines + RunSoFar>(
    queueing: &Q,
    shared: &mut Shared,
    done: Done,
    notes: &mut Notes,
)
    requires { MayBePut (Q.subject queueing.now) shared.old notes.old done (Q.leads_to queueing.now (Q.subject queueing.now)) }
    ensures { IsPutIn (Q.subject queueing.now) (Q.leads_to queueing.now (Q.subject queueing.now)) shared.new notes.old notes.new done }
{
    apply(queueing, shared, done, notes)
}

/// Puts what a firing did in the situation that the run so far leads to.
pub fn put_firing<R: RunSoFar>(
    program: &Program,
    so_far: &R,
    shared: &mut Shared,
    done: Done,
    notes: &mut Notes,
)
    requires { MayBePut program.now shared.old notes.old done (R.leads_to so_far.now program.now) }
    ensures { IsPutIn program.now (R.leads_to so_far.now program.now) shared.new notes.old notes.new done }
{
    let queueing = Queueing {
        program: &*program,
        so_far: &*so_far,
    };
    put_by(&queueing, shared, done, notes)
}

/// Puts what the initialization did.
pub fn put_start(program: &Program, shared: &mut Shared, done: Done, notes: &mut Notes)
    requires { MayBePut program.now shared.old notes.old done (bare program.now) }
    ensures { IsPutIn program.now (bare program.now) shared.new notes.old notes.new done }
{
    put_firing(program, &Nothing, shared, done, notes)
}
