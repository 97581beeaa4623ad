//! Laws: their contracts are the laws, and they do nothing.

ghost use Rattle.situation.specs.Known.{PlannedStepsReach};

/// A step that is planned from a world as it is leads on from what the planned steps of a run lead to.
pub fn planned_steps_reach<C, H>()
    ensures { PlannedStepsReach C H }
{}
