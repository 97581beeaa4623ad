//! The laws: the contract of each is the law, and none does anything.

ghost use Rattle.body_machine_kinds.specs.Laws.{KindedCodesGoOn, KindedCodesAreNotStuck, StartedAreNotStuck, LegalImagesMayBegin, TheStartMayBegin, BlocksAreNotStuck, GuardsAreNotStuck, DelaysAreNotStuck, InitializationsAreNotStuck};
ghost use Rattle.body_machine_kinds.specs.NeverStuck.{GoodKindsAreNeverStuck, TrueGuardsSayTrue};

/// An instruction of a code of good kinds finds its operands. What stops it is a fault, or a rule of a statement of Estelle
/// that its own step tests.
pub fn kinded_codes_go_on()
    ensures { KindedCodesGoOn }
{}

/// So does each that a run comes to.
pub fn kinded_codes_are_not_stuck()
    ensures { KindedCodesAreNotStuck }
{}

/// So does each of a unit that begins for itself with values of the types that it is given.
pub fn started_are_not_stuck()
    ensures { StartedAreNotStuck }
{}

/// Units of jobs and guards are such, and leave what is asked of them.
pub fn units_are_not_stuck()
    ensures blocks { BlocksAreNotStuck }
    ensures guards { GuardsAreNotStuck }
    ensures delays { DelaysAreNotStuck }
    ensures initializations { InitializationsAreNotStuck }
{}

/// They may begin on a legal image, and on the specification's own instance at the start.
pub fn legal_images_may_begin()
    ensures images { LegalImagesMayBegin }
    ensures start { TheStartMayBegin }
{}

/// In all, the start, firings and guards by a code of good kinds end, fault, or break a rule only where an instruction that asks for
/// more than kinds is refused.
pub fn good_kinds_are_never_stuck()
    ensures { GoodKindsAreNeverStuck }
{}

/// The guard of a transition without `provided` leaves true, whatever it is given.
pub fn true_guards_say_true()
    ensures { TrueGuardsSayTrue }
{}
