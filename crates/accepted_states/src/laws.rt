//! The law of accepted specifications. Its contract is the law, and the function does nothing.

ghost use Rattle.accepted_states.specs.Laws.{AcceptedLeadToStates, ReadLeadToStates};

/// A specification that spells tokens one behind another and breaks no rule leads to states of its own; so does one that was
/// read from a text.
pub fn accepted_lead_to_states()
    ensures tokens { AcceptedLeadToStates }
    ensures text { ReadLeadToStates }
{}
