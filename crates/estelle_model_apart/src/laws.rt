//! Laws: their contracts are the laws, and they do nothing.

ghost use Rattle.estelle_model_apart.specs.Apart.{EventsLeaveTheApart, ManyLeaveTheApart, EventsAreApart, RunsLeaveTheApart};
ghost use Rattle.estelle_model_apart.specs.Answers.{AnswersHoldLater, AnswersHoldInRuns};

/// An event of other instances, none of which is the instance of a pending firing or above or below it, leaves the firing
/// pending, with its private part and what it receives, whatever is made, released, attached or detached there; and so do
/// any number of them.
pub fn events_leave_the_apart()
    ensures one { EventsLeaveTheApart }
    ensures many { ManyLeaveTheApart }
{}

/// While a firing is pending, every event but its own is one of those, or a fault; and so, from where it is pending to where
/// it fires, a run leaves what it finds.
pub fn events_are_apart()
    ensures one { EventsAreApart }
    ensures run { RunsLeaveTheApart }
{}

/// What was computed of a firing answers in each later situation in which it finds the same: each effect can be made there at
/// its turn and what is put is the firing, or the firing is the same fault. So it does in a run until the firing is made.
pub fn answers_hold_later()
    ensures later { AnswersHoldLater }
    ensures run { AnswersHoldInRuns }
{}
