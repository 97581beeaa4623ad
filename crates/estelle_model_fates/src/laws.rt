//! Laws: their contracts are the laws, and they do nothing.

ghost use Rattle.estelle_model_fates.specs.Fates.{OutputsAreCounted, OutputsHaveOneFate, NoOthersHaveFates};
ghost use Rattle.estelle_model_fates.specs.Order.{NoneIsOvertaken, FirstInFirstOut, MovesKeepOrder};

/// In every run, of every specification, the outputs have the numbers from 1 on, and each has exactly one fate: none is
/// lost, consumed or dropped twice, and none vanishes.
pub fn outputs_have_one_fate()
    ensures counted { OutputsAreCounted }
    ensures one { OutputsHaveOneFate }
    ensures none { NoOthersHaveFates }
{}

/// In every run of a specification whose initializations and transitions lead to states of their bodies, interactions that
/// are never moved leave a queue in the order of their numbers. Those that are moved to another interaction point keep
/// their order among themselves.
pub fn first_in_is_first_out()
    ensures overtaken { NoneIsOvertaken }
    ensures first { FirstInFirstOut }
    ensures moved { MovesKeepOrder }
{}
