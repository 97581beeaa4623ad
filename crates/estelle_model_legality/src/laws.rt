//! Laws of legal situations: their contracts are the laws, and they do nothing.

ghost use Rattle.estelle_model_legality.specs.Choices.{LegalAreTree, ChosenIsSelected, ChosenIsOne, ChosenIsThere};
ghost use Rattle.estelle_model_legality.specs.Jobs.{PendingHaveJobs, PendingMeetCondition, StartMeetsCondition};
ghost use Rattle.estelle_model_legality.specs.Keeping.{StartIsLegal, EventsKeepLegal, RunsAreLegal};

/// What is pending in a legal situation has a job there: what is computed of it alone answers for the situation. That job
/// meets the condition of a job, where more children can be born than it has units, and so does that of the initialization.
pub fn pending_have_jobs()
    ensures jobs { PendingHaveJobs }
    ensures condition { PendingMeetCondition }
    ensures start { StartMeetsCondition }
{}

/// The situation that the start comes to is legal, for every specification whose initializations and transitions lead to
/// states of their bodies, whatever its blocks do.
pub fn start_is_legal()
    ensures { StartIsLegal }
{}

/// The situation after an event is legal, where the event applies to a legal one, for every such specification.
pub fn events_keep_legal()
    ensures { EventsKeepLegal }
{}

/// Every situation of a run is legal, for every such specification.
pub fn runs_are_legal()
    ensures { RunsAreLegal }
{}

/// What a chooser chooses at and below an instance may be selected there, in every tree of instances and with timers whose
/// low is at most their high; the instances of a legal situation are such a tree. It chooses one thing, and of a system
/// it chooses something, where it picks among the candidates.
pub fn chosen_is_selected<C>()
    ensures tree { LegalAreTree }
    ensures selected { ChosenIsSelected C }
    ensures one { ChosenIsOne C }
    ensures there { ChosenIsThere C }
{}
