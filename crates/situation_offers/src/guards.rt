//! What the instances of a system count, by their guards.

ghost use Rattle.std.specs.Prelude.{◌≡◌, ℕ, ◌++◌, option_and_then, IfSome, IfOk, OnOk, map as each};
ghost use Rattle.std.specs.Option.{option_copied};
ghost use Rattle.std.specs.FinMap as map;
ghost use Rattle.estelle_tree.specs.Paths.{Path as Seen};
ghost use Rattle.estelle_tree.specs.Timers.{pair};
ghost use Rattle.estelle_model.specs.Situation.{Situation};
ghost use Rattle.estelle_model.specs.Subject.{Subject, body as body_of};
ghost use Rattle.estelle_model.specs.Attributes.{attribute, is_process, IsSystem};
ghost use Rattle.estelle_model.specs.Firing.{guard};
ghost use Rattle.estelle_model.specs.Delays.{has_delay, renew};
ghost use Rattle.estelle_model.specs.Selection.{priority};
ghost use Rattle.estelle_model.specs.Runs.{IsFirstFault};
ghost use Rattle.estelle_model_legality.specs.Situations.{IsLegal};
ghost use Rattle.situation_images.specs.Instances.{IsOfBody, IsPartOf};
ghost use Rattle.effect_log.specs.Standing.{Stands};
ghost use Rattle.transition_select.specs.Countings.{AreCountablesOf};
ghost use Rattle.situation_offers.specs.Guards as spec;
ghost use Rattle.situation_offers.specs.Asked.{IsShown, MayBeAsked, IsAt, IsImageOf, IsAnswer, AreAll, IsCount, IsCountingOf, IsOffering};

use body_jobs::{Guards, settled};
use body_program::Program;
use delay_timers::Timers;
use effect_log::Shared;
use estelle_model::{Attribute, Guard, Interaction, Part};
use estelle_tree::{Path, Wanted};
use pascal_values::Fault;
use situation_images::{Private, found_head};
use std::alloc::{AllocError, Global};
use transition_select::{Countable, Counting};

/// What the guards of an instance come to.
#[derive(Drop)]
pub(crate) enum Count {
    /// None faults, and these transitions may be selected.
    Counts(Vec<Countable>),
    /// This one is the first that faults.
    Faults { trans: u32, kind: Fault },
}

/// What the guards of a system come to.
#[derive(Drop)]
pub enum Offering {
    /// None faults. The instances count this, in path order, and these enabled transitions with a delay want a timer.
    Counts {
        counts: Vec<Counting>,
        wanted: Vec<Wanted>,
    },
    /// This one is the first that faults.
    Faults {
        path: Path,
        trans: u32,
        kind: Fault,
    },
}

/// What is held of an instance's private part, or else that part, read now.
fn private_of<'s>(
    alloc: Global,
    program: &Program,
    shared: &'s Shared,
    path: &Path,
    held: Option<Private<'s>>,
) -> Result<Private<'s>, AllocError>
    ensures { (g : Situation) → Stands program.now shared.now g → IsLegal program.now g → IfSome held.entry (IsImageOf program.now g path.now) → IfOk result (IsImageOf program.now g path.now) }
{
    match held {
        Some(private) => Ok(private),
        None => Private::of(alloc, program, shared, path),
    }
}

/// The guard of a transition of an instance, by its private part, which is then held.
fn evaluated<'s, G: Guards>(
    alloc: Global,
    program: &Program,
    guards: &G,
    shared: &'s Shared,
    path: &Path,
    trans: u32,
    head: Option<&Interaction>,
    timed: bool,
    budget: u32,
    held: &mut Option<Private<'s>>,
) -> Result<Guard, AllocError>
    requires guards { G.subject guards.now ≡ program.now }
    ensures { (g : Situation) → Stands program.now shared.now g → IsLegal program.now g → IfSome held.old (IsImageOf program.now g path.now) → IfOk result (λ answer. IsAnswer program.now budget g path.now trans (option_copied head.entry) timed answer × IfSome held.new (IsImageOf program.now g path.now)) }
{
    let private = private_of(alloc, program, shared, path, held.take())?;
    let answer = guards.guard(alloc, path, &private.view(), trans, head, timed, budget)?;
    *held = Some(private);
    Ok(answer)
}

/// The guard of a transition of an instance. Its private part is read where something has to be evaluated, once for all transitions.
pub(crate) fn guard_of<'s, G: Guards>(
    alloc: Global,
    program: &Program,
    guards: &G,
    shared: &'s Shared,
    timers: &Timers,
    part: &Part,
    trans: u32,
    budget: u32,
    held: &mut Option<Private<'s>>,
) -> Result<Guard, AllocError>
    requires guards { G.subject guards.now ≡ program.now }
    ensures { (g : Situation) → IsShown program.now shared.now timers.now g → IsPartOf g part.now → IfSome held.old (IsImageOf program.now g part.now.path) → IfOk result (λ answer. (answer ≡ guard program.now budget g part.now.path trans) × IfSome held.new (IsImageOf program.now g part.now.path)) }
{
    let head = found_head(alloc, program, shared, &part.path, part.body, trans)?;
    let timed = timers.has(&part.path, trans);
    match settled(program, part, trans, head, timed) {
        Some(answer) => Ok(answer),
        None => evaluated(
            alloc, program, guards, shared, &part.path, trans, head, timed, budget, held,
        ),
    }
}

/// The priority of a transition of a body.
fn priority_of(program: &Program, body: u32, trans: u32) -> Option<i64>
    ensures { (g : Situation) (m : Seen) → IsOfBody g m body → result ≡ priority program.now g m trans }
{
    match program.transition(body, trans) {
        None => None,
        Some(transition) => transition.priority(),
    }
}

/// Whether a transition of a body has a delay.
fn is_delayed(program: &Program, body: u32, trans: u32) -> bool
    ensures { (g : Situation) (m : Seen) → IsOfBody g m body → result ≡ has_delay program.now g m trans }
{
    match program.transition(body, trans) {
        None => false,
        Some(transition) => transition.delay().is_some(),
    }
}

/// Whether a delay is over now: that of the timer that runs, or else of one that starts now.
fn is_over(timers: &Timers, path: &Path, trans: u32, low: u32, now: u64) -> bool
    ensures { result ≡ spec.is_over now (map.get timers.now (pair path.now trans)) low }
{
    if timers.has(path, trans) {
        timers.may(path, trans, now)
    } else {
        now.saturating_add(u64::from(low)) <= now
    }
}

/// Whether a delay that ends is over now: that of the timer that runs, or else of one that starts now.
fn has_ended(timers: &Timers, path: &Path, trans: u32, high: Option<u32>, now: u64) -> bool
    ensures { result ≡ spec.has_ended now (map.get timers.now (pair path.now trans)) high }
{
    if timers.has(path, trans) {
        return timers.must(path, trans, now);
    }
    match high {
        None => false,
        Some(high) => now.saturating_add(u64::from(high)) <= now,
    }
}

/// Whether a transition may be selected once the timers are renewed.
fn may(
    program: &Program,
    timers: &Timers,
    path: &Path,
    body: u32,
    trans: u32,
    answer: Guard,
    now: u64,
) -> bool
    ensures { (g : Situation) → IsOfBody g path.now body → result ≡ spec.may_by now (map.get timers.now (pair path.now trans)) (has_delay program.now g path.now trans) answer }
{
    match answer {
        Guard::On { low, .. } => {
            if is_delayed(program, body, trans) {
                is_over(timers, path, trans, low, now)
            } else {
                true
            }
        }
        _ => false,
    }
}

/// Whether a transition must be counted then.
fn must(
    program: &Program,
    timers: &Timers,
    path: &Path,
    body: u32,
    trans: u32,
    answer: Guard,
    now: u64,
) -> bool
    ensures { (g : Situation) → IsOfBody g path.now body → result ≡ spec.must_by now (map.get timers.now (pair path.now trans)) (has_delay program.now g path.now trans) answer }
{
    match answer {
        Guard::On { high, .. } => {
            if is_delayed(program, body, trans) {
                has_ended(timers, path, trans, high, now)
            } else {
                true
            }
        }
        _ => false,
    }
}

/// Counts a transition that may be selected.
fn count_if(
    program: &Program,
    body: u32,
    trans: u32,
    may: bool,
    must: bool,
    counted: &mut Vec<Countable>,
) -> Result<(), AllocError>
    ensures { (g : Situation) (m : Seen) → IsOfBody g m body → OnOk result (counted.new.items ≡ counted.old.items ++ spec.counted_if may trans (priority program.now g m trans) must) }
{
    if may {
        counted.push(Countable {
            trans,
            priority: priority_of(program, body, trans),
            must,
        })?;
    }
    Ok(())
}

/// An enabled transition with a delay wants a timer.
fn want_if(
    alloc: Global,
    delayed: bool,
    path: &Path,
    trans: u32,
    answer: Guard,
    wanted: &mut Vec<Wanted>,
) -> Result<(), AllocError>
    ensures { OnOk result (wanted.new.items ≡ wanted.old.items ++ spec.wanted_if delayed (pair path.now trans) answer) }
{
    if !delayed {
        return Ok(());
    }
    match answer {
        Guard::On { low, high } => {
            let path = path.copy(alloc)?;
            wanted.push(Wanted {
                path,
                trans,
                low,
                high,
            })?;
            Ok(())
        }
        _ => Ok(()),
    }
}

/// Asks each guard of an instance, in the order of its transitions.
fn count_all<G: Guards>(
    alloc: Global,
    program: &Program,
    guards: &G,
    shared: &Shared,
    timers: &Timers,
    part: &Part,
    now: u64,
    budget: u32,
    wanted: &mut Vec<Wanted>,
) -> Result<Count, AllocError>
    requires guards { G.subject guards.now ≡ program.now }
    ensures { (g : Situation) (system : Seen) → MayBeAsked program.now shared.now timers.now g system → IsAt g system part.now → IfOk result (IsCount program.now budget g system now part.now.path wanted.old.items wanted.new.items) }
{
    let path = &part.path;
    let body = part.body;
    let mut held = None;
    let mut counted = Vec::new(alloc);
    for index in 0..program.transitions(body) {
        let trans = index + 1;
        let answer = guard_of(
            alloc, program, guards, shared, timers, part, trans, budget, &mut held,
        )?;
        if let Guard::Faulted(kind) = answer {
            return Ok(Count::Faults { trans, kind });
        }
        let may = may(program, timers, path, body, trans, answer, now);
        let must = must(program, timers, path, body, trans, answer, now);
        count_if(program, body, trans, may, must, &mut counted)?;
        let delayed = is_delayed(program, body, trans);
        want_if(alloc, delayed, path, trans, answer, wanted)?;
    }
    Ok(Count::Counts(counted))
}

/// Whether what the children of an instance of a body select is taken together.
fn is_of_process(program: &Program, body: u32) -> bool
    ensures { result ≡ is_process (option_and_then (λ b. attribute program.now body) (body_of program.now body)) }
{
    match program.attribute(body) {
        Some(Attribute::Systemprocess) => true,
        Some(Attribute::Process) => true,
        _ => false,
    }
}

/// What an instance counts, with how its children are taken.
fn counting(
    alloc: Global,
    program: &Program,
    part: &Part,
    transitions: Vec<Countable>,
) -> Result<Counting, AllocError>
    ensures { (g : Situation) (system : Seen) (now budget : ℕ) → IsLegal program.now g → IsSystem program.now g system → IsAt g system part.now → AreCountablesOf program.now budget (renew program.now budget g system now) part.now.path transitions.items → IfOk result (IsCountingOf program.now budget g system now part.now.path) }
{
    Ok(Counting {
        path: part.path.copy(alloc)?,
        of_process: is_of_process(program, part.body),
        transitions,
    })
}

/// A guard that faults is the first of all.
fn faulted(alloc: Global, path: &Path, trans: u32, kind: Fault) -> Result<Offering, AllocError>
    ensures { (s : Subject) (budget : ℕ) (g : Situation) (system : Seen) (now : ℕ) → IsFirstFault s budget g system path.now trans kind → IfOk result (IsOffering s budget g system now) }
{
    Ok(Offering::Faults {
        path: path.copy(alloc)?,
        trans,
        kind,
    })
}

/// Asks the guards of instances, one after another.
fn ask_each<G: Guards>(
    alloc: Global,
    program: &Program,
    guards: &G,
    shared: &Shared,
    timers: &Timers,
    parts: &[&Part],
    now: u64,
    budget: u32,
) -> Result<Offering, AllocError>
    requires guards { G.subject guards.now ≡ program.now }
    ensures { (g : Situation) (system : Seen) → MayBeAsked program.now shared.now timers.now g system → AreAll g system (each (λ r. r.now) parts.now) → IfOk result (IsOffering program.now budget g system now) }
{
    let mut counts = Vec::new(alloc);
    let mut wanted = Vec::new(alloc);
    for part in parts {
        let count = count_all(
            alloc,
            program,
            guards,
            shared,
            timers,
            part,
            now,
            budget,
            &mut wanted,
        )?;
        match count {
            Count::Counts(counted) => {
                counts.push(counting(alloc, program, part, counted)?)?;
            }
            Count::Faults { trans, kind } => return faulted(alloc, &part.path, trans, kind),
        }
    }
    Ok(Offering::Counts { counts, wanted })
}

/// Asks each guard of a system, in path order and in the order of transitions, and tells what its instances count
/// once its timers are renewed at the moment `now`. The timers stay as they are. Where no guard of an instance has to be evaluated, only its
/// own record and the heads of its queues are read; else it takes the time of the instances at and below it and of all links, and the
/// memory of a reference to each of those instances and of the links that they made, once for all its guards.
pub fn ask<G: Guards>(
    alloc: Global,
    program: &Program,
    guards: &G,
    shared: &Shared,
    timers: &Timers,
    system: &Path,
    now: u64,
    budget: u32,
) -> Result<Offering, AllocError>
    requires guards { G.subject guards.now ≡ program.now }
    ensures { (g : Situation) → Stands program.now shared.now g → IsLegal program.now g → timers.now ≡ g.timers → IsSystem program.now g system.now → IfOk result (IsOffering program.now budget g system.now now) }
{
    match shared.tree.below(alloc, system) {
        Ok(parts) => ask_each(alloc, program, guards, shared, timers, &parts, now, budget),
        // The system is there.
        Err(_) => Err(AllocError),
    }
}
