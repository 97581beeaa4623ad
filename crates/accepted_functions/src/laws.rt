//! The law of functions of accepted specifications. Its contract is the law, and the function does nothing.

ghost use Rattle.accepted_functions.specs.Laws.{AcceptedFunctionsAreQuiet, ReadFunctionsAreQuiet};

/// In a specification that spells tokens one behind another and breaks no rule functions are quiet, and what they and guards
/// evaluate names no procedure; so it is in one that was read from a text.
pub fn accepted_functions_are_quiet()
    ensures tokens { AcceptedFunctionsAreQuiet }
    ensures text { ReadFunctionsAreQuiet }
{}
