//! Laws of what is computed apart from the situation: their contracts are the laws, and they do nothing.

ghost use Rattle.estelle_model_answers.specs.Laws.{JobsAreAnswered, GuardsAreAnswered};

/// What the block of a job comes to on a log that begins with the private part answers the job: in each
/// situation in which this is the job, both fault alike with the same units left, or each effect can be
/// made at its turn, what is put is the firing, and the image is the private part of what comes to be.
pub fn jobs_are_answered()
    ensures { JobsAreAnswered }
{}

/// A guard on such a log is the guard in each situation with this private part.
pub fn guards_are_answered()
    ensures { GuardsAreAnswered }
{}
