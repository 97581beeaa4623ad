/// What stops a specification's own code.
#[derive(Clone, Copy, Debug, PartialEq, Eq)]
pub enum Fault {
    DivideByZero,
    ModNotPositive,
    Overflow,
    Range,
    Index,
    Unset,
    NoCase,
    StepLimit,
    CallDepth,
    NoModule,
    ModuleTaken,
    LinkTaken,
    LinkAbsent,
    DelayRange,
}
