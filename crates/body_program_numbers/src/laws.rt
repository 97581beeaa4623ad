//! What the numbers of a specification promise.

ghost use Rattle.body_program_numbers.specs.Laws as laws;

/// The numbers stand for what they are numbers of.
pub fn numbers_law()
    ensures shapes { laws.NumbersStandForShapes }
    ensures exports { laws.NumbersStandForExports }
    ensures interactions { laws.NumbersStandForInteractions }
    ensures parameters { laws.ParametersAreOfChildren }
    ensures routines { laws.NumbersStandForRoutines }
{}
