//! Laws on tickets: their contracts are the laws, and they do nothing.

ghost use Rattle.run_history.specs.OpenTickets.{OpenTicketsAreListed, OpenTicketsRise, TicketsGoOn, TicketsStayOpen, JobsStay, OpenTicketsAreApart, SettlingFollows, SettlingTakesOut, OthersTakeNoneOut, TakesLeave, FiringsLeave, SelectionsLeave};

/// The open tickets of any entries are those of the list `open_in`, in order.
pub fn open_tickets_are_listed()
    ensures listed { OpenTicketsAreListed }
    ensures rise { OpenTicketsRise }
{}

/// Tickets stay in order, each settled by who took it, with each entry that may be noted.
pub fn tickets_go_on()
    ensures { TicketsGoOn }
{}

/// What a writer took stays its own until it notes what settles it, and its job stays the same.
pub fn still_open()
    ensures open { TicketsStayOpen }
    ensures job_carries { JobsStay }
{}

/// No two open tickets are of one firing, so what settles a ticket settles no other, and takes it alone out of the list.
pub fn tickets_are_settled()
    ensures apart { OpenTicketsAreApart }
    ensures follow { SettlingFollows }
    ensures out { SettlingTakesOut }
    ensures others { OthersTakeNoneOut }
{}

/// What is pending and was not taken: a take takes its firing out of it, a firing that was taken leaves it as it is, and what a
/// system selects comes behind it.
pub fn untaken_go_on()
    ensures takes { TakesLeave }
    ensures firings { FiringsLeave }
    ensures selections { SelectionsLeave }
{}
