//! The laws: the contract of each is the law, and none does anything.

ghost use Rattle.body_compiler_laws.specs.Laws.{BlocksAreCompiled, ClausesAreCompiled, CompiledCodesAreFaithful};

/// The unit of a block comes to what the block means, what stops it and the units left included.
pub fn blocks_are_compiled()
    ensures { BlocksAreCompiled }
{}

/// The unit of an expression in a clause comes to its value, or to what stops it.
pub fn clauses_are_compiled()
    ensures { ClausesAreCompiled }
{}

/// What the machine comes to with a code that a specification is compiled to is what is computed of each job and guard.
pub fn compiled_codes_are_faithful()
    ensures { CompiledCodesAreFaithful }
{}
