//! What a system selects, and whether anything is enabled.

ghost use Rattle.std.specs.Prelude.{◌≡◌, ◌↔◌, ℕ, IsTrue, IfOk, IfErr};
ghost use Rattle.estelle_tree.specs.Paths.{Path as Seen};
ghost use Rattle.estelle_model.specs.Subject.{Subject};
ghost use Rattle.estelle_model.specs.Situation.{Situation};
ghost use Rattle.estelle_model.specs.Attributes.{IsSystem};
ghost use Rattle.estelle_model.specs.Delays.{is_on};
ghost use Rattle.estelle_model.specs.Schedule.{Chosen as ByChooser};
ghost use Rattle.estelle_model_legality.specs.Choices.{AreTree};
ghost use Rattle.situation_images.specs.Instances.{IsPartOf};
ghost use Rattle.transition_select.specs.Countings.{AreCountings};
ghost use Rattle.situation_offers.specs.declared.selection.SelectFault.TheVariants.{Memory as IsMemory};
ghost use Rattle.situation_offers.specs.Selections.{IsViewOf, IsSelection, IsRefusal, LeavesChooser, EnablesSome, SomeIsEnabled};

use crate::guards::{Offering, ask, guard_of};
use body_jobs::Guards;
use body_program::Program;
use delay_timers::Timers;
use effect_log::Shared;
use estelle_model::{Guard, Pair, Part};
use estelle_tree::{Path, Wanted};
use outside::Chooser;
use pascal_values::Fault;
use std::alloc::{AllocError, Global};
use transition_select::{Counting, choose, offers_of};

/// A situation as guards are asked in it: the specification, who evaluates its guards, the stores and the timers, and the units
/// that each guard has.
#[derive(Drop)]
pub struct View<'a, G> {
    pub program: &'a Program<'a>,
    pub guards: &'a G,
    pub shared: &'a Shared,
    pub timers: &'a Timers,
    pub budget: u32,
}

/// What a system selects.
#[derive(Debug, Drop)]
pub struct Chosen {
    /// In path order.
    pub takes: Vec<Pair>,
    /// The enabled transitions with a delay, in path order and in the order of transitions. A renewal of the timers with
    /// them leads to the situation in which these firings are selected.
    pub wanted: Vec<Wanted>,
}

/// Why a system selects nothing.
#[derive(Debug, Drop)]
pub enum SelectFault {
    /// This guard is the first that faults, in path order and in the order of transitions.
    Guard {
        path: Path,
        trans: u32,
        fault: Fault,
    },
    Memory,
}

impl From<AllocError> for SelectFault {
    ghost from_gives = { λ _ e. e ≡ IsMemory };

    fn from(_error: AllocError) -> SelectFault {
        SelectFault::Memory
    }
}

/// What the chooser picks of what instances count.
fn takes_of<H: Chooser>(
    alloc: Global,
    counts: &[Counting],
    chooser: &mut H,
) -> Result<Vec<Pair>, AllocError>
    ensures { (s : Subject) (budget : ℕ) (g : Situation) (m : Seen) → AreTree s g.core.instances → AreCountings s budget g m counts.now → IfOk result (λ takes. ByChooser H.draw s budget g m chooser.old takes.items chooser.new) }
{
    let offers = offers_of(alloc, counts)?;
    choose(alloc, &offers, chooser)
}

/// What a system selects at the moment `now`, where the chooser picks among what is offered (ISO/IEC 9074: enabled transitions,
/// parent priority, `delay` clauses). The timers stay as they are. Each guard at and below the system is asked once, up to the
/// first that faults, and then nobody asks the chooser. Where memory runs out behind the guards, the chooser may have been
/// asked. It takes the time of `ask` and of `choose`.
pub fn select<G: Guards, H: Chooser>(
    alloc: Global,
    view: &View<G>,
    system: &Path,
    now: u64,
    chooser: &mut H,
) -> Result<Chosen, SelectFault>
    requires guards { G.subject view.now.guards.now ≡ view.now.program.now }
    ensures selected { (g : Situation) → IsViewOf g view.now → IsSystem view.now.program.now g system.now → IfOk result (λ chosen. IsSelection H.draw view.now.program.now view.now.budget g system.now now chooser.old chooser.new chosen.takes.items chosen.wanted.items) }
    ensures refused { (g : Situation) → IsViewOf g view.now → IsSystem view.now.program.now g system.now → IfErr result (IsRefusal view.now.program.now view.now.budget g system.now) }
    ensures unasked { IfErr result (LeavesChooser chooser.old chooser.new) }
{
    let offering = ask(
        alloc,
        view.program,
        view.guards,
        view.shared,
        view.timers,
        system,
        now,
        view.budget,
    )?;
    match offering {
        Offering::Counts { counts, wanted } => {
            let takes = takes_of(alloc, &counts, chooser)?;
            Ok(Chosen { takes, wanted })
        }
        Offering::Faults { path, trans, kind } => Err(SelectFault::Guard {
            path,
            trans,
            fault: kind,
        }),
    }
}

fn is_on(answer: Guard) -> bool
    ensures { result ≡ is_on answer }
{
    match answer {
        Guard::On { .. } => true,
        _ => false,
    }
}

/// Whether some transition of an instance is enabled.
fn enables_some<G: Guards>(alloc: Global, view: &View<G>, part: &Part) -> Result<bool, AllocError>
    requires guards { G.subject view.now.guards.now ≡ view.now.program.now }
    ensures { (g : Situation) → IsViewOf g view.now → IsPartOf g part.now → IfOk result (λ some. IsTrue some ↔ EnablesSome view.now.program.now view.now.budget g part.now.path) }
{
    let program = view.program;
    let mut held = None;
    for index in 0..program.transitions(part.body) {
        let answer = guard_of(
            alloc,
            program,
            view.guards,
            view.shared,
            view.timers,
            part,
            index + 1,
            view.budget,
            &mut held,
        )?;
        let enabled = is_on(answer);
        if enabled {
            return Ok(true);
        }
    }
    Ok(false)
}

/// Whether some transition of some instance is enabled, with or without a delay (ISO/IEC 9074: enabled transitions). A guard that
/// faults enables nothing. Guards are asked in path order and in the order of transitions, up to the first that is enabled. An
/// error is want of memory.
pub fn any_enabled<G: Guards>(alloc: Global, view: &View<G>) -> Result<bool, AllocError>
    requires guards { G.subject view.now.guards.now ≡ view.now.program.now }
    ensures { (g : Situation) → IsViewOf g view.now → IfOk result (λ any. IsTrue any ↔ SomeIsEnabled view.now.program.now view.now.budget g) }
{
    let root = Path::root(alloc);
    // The root is always there.
    let Ok(parts) = view.shared.tree.below(alloc, &root) else {
        return Err(AllocError);
    };
    for part in &parts {
        let some = enables_some(alloc, view, part)?;
        if some {
            return Ok(true);
        }
    }
    Ok(false)
}
