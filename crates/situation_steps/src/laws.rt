//! Laws: their contracts are the laws, and they do nothing.

ghost use Rattle.situation_steps.specs.Others.{FiringsLeaveOthers};
ghost use Rattle.situation_steps.specs.Laws.{StartsGoOn, NoneAreDue, SelectionsGoOn, FiringsGoOn, TimersAreWaitedFor, WaitsGoOn};
ghost use Rattle.situation_steps.specs.Ends.{FaultsEnd, GuardFaultsArePlanned, DeadEnds, TurnsEnd, ClocksEndSelections, ClocksEndWaits};

/// A firing leaves the systems as they are, and the guards of other systems at which none of its outputs arrives.
pub fn firings_leave_others()
    ensures { FiringsLeaveOthers }
{}

/// The start is a run that goes on, where it does not fault.
pub fn starts_go_on()
    ensures { StartsGoOn }
{}

/// Where none of the systems that are kept is due, none is due in the run.
pub fn none_are_due()
    ensures { NoneAreDue }
{}

/// What a chooser chooses for the first system that is due is planned and applies, and the run goes on after it.
pub fn selections_go_on<C>()
    ensures { SelectionsGoOn C }
{}

/// A pending firing that runs applies, and the run goes on after it.
pub fn firings_go_on()
    ensures { FiringsGoOn }
{}

/// Where nothing is due or pending and a timer runs, the clock is waited for, for the first time since the last firing.
pub fn timers_are_waited_for()
    ensures { TimersAreWaitedFor }
{}

/// The run goes on after the wait.
pub fn waits_go_on()
    ensures { WaitsGoOn }
{}

/// A fault that applies ends the run.
pub fn faults_end()
    ensures { FaultsEnd }
{}

/// The first guard of the first due system that faults applies, and is planned.
pub fn guard_faults_are_planned<C>()
    ensures { GuardFaultsArePlanned C }
{}

/// Where nothing is due or pending and no timer runs, the run is dead.
pub fn dead_ends()
    ensures { DeadEnds }
{}

/// The limit of firings ends the run.
pub fn turns_end()
    ensures { TurnsEnd }
{}

/// A clock that fails ends the run, where it is asked for a selection.
pub fn clocks_end_selections()
    ensures { ClocksEndSelections }
{}

/// And where it is waited for.
pub fn clocks_end_waits()
    ensures { ClocksEndWaits }
{}
