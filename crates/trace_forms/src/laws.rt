//! The laws. The contract of each function is a law, and the function does nothing.

ghost use Rattle.trace_forms.specs.Laws.{ParametersAreReadable, RunsHaveForm};

/// The values of the parameters of the interactions of an accepted specification can be read.
pub fn parameters_are_readable()
    ensures { ParametersAreReadable }
{}

/// The events and the end of every run of an accepted specification have the form that a trace can tell, where the numbers
/// of births and outputs that the events name fit in 64 bits.
pub fn runs_have_form()
    ensures { RunsHaveForm }
{}
