//! Laws: their contracts are the laws, and they do nothing.

ghost use Rattle.guards_seen.specs.Laws.{GuardsSeeTheirOwn, OffersBecomeFresh, RowsStay, OffersStayFresh};

/// Where functions are quiet, a guard has the same value in two situations that have the same record of its instance, the same
/// records of its children, the same head for its `when`, and its timer in both or in neither.
pub fn guards_see_their_own()
    ensures { GuardsSeeTheirOwn }
{}

/// Once all guards of an instance are evaluated and none faults, the row of its enabled transitions is right, and the offers are
/// fresh without its mark.
pub fn offers_become_fresh()
    ensures { OffersBecomeFresh }
{}

/// An event that touches neither an instance nor a child of it, nor its heads and timers, leaves its row as it is; and offers stay
/// fresh where all others are marked.
pub fn offers_stay_fresh()
    ensures rows { RowsStay }
    ensures fresh { OffersStayFresh }
{}
