//! Laws: their contracts are the laws, and they do nothing.

ghost use Rattle.effect_log.specs.Standing.{QueuesAreHeld};
ghost use Rattle.effect_log.specs.Putting.{PutsAreFirings};

/// Where the shared state stands for a situation, the queue of each interaction point is the one that it has there.
pub fn queues_are_held()
    ensures { QueuesAreHeld }
{}

/// What a done that ran puts into a situation of its job is the firing there, but for the timer, which is dropped.
pub fn puts_are_firings()
    ensures { PutsAreFirings }
{}
