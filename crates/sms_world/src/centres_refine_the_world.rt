//! How the centre refines the world, and the events that are steps by themselves.
//!
//! The centre **refines** the world (`specs/centres_refine_the_world/CentreRefinement.antt`) where its rows, and what its links may send
//! again, can be looked up there and back. A new centre refines the empty world. One that starts again from its rows
//! refines what they show. What handsets do keeps this. Some of its events are steps of the world by themselves. They
//! are a question, a session that is bound or ends, an answer to a receipt, a link that is up or down, and an operator's
//! retry. Their steps are offers of what waits, which follow every event. A submission, a cancel and a tick are events of a script.
//! `crate::centre_runs_are_steps` has the frame.
ghost use Rattle.sms_world.specs.centres_refine_the_world.CentreLaws.{AnsweredLaw, BackLaw, BoundLaw, CancelLaw, DeleteLaw, FirstLaw, HandsetLaw, LinkDownLaw};
ghost use Rattle.sms_world.specs.centres_refine_the_world.CentreLaws.{LinkUpLaw, NextLaw, NextReferenceLaw, NoReferenceLaw, PartFarLaw, QueryLaw, ReportFarLaw};
ghost use Rattle.sms_world.specs.centres_refine_the_world.CentreLaws.{RetryLaw, SubmitLaw, TickLaw, UnboundLaw};

/// The centre of a new store refines the empty world. One that has adopted an event refines the world that the event
/// led to. One that stops, after a store call or between events, starts again with rows that refine the world.
pub fn a_centre_begins_to_see()
    ensures first { FirstLaw }
    ensures next { NextLaw }
    ensures back { BackLaw }
{}

/// What a handset does leaves what the centre sees.
pub fn handset_steps_keep_the_centre_refinement()
    ensures { HandsetLaw }
{}

/// How far parts and reports are, the world does not show, but for which parts and status reports are done.
pub fn progress_is_not_modelled()
    ensures part { PartFarLaw }
    ensures report { ReportFarLaw }
{}

/// The next reference at a handset is one that the world may give there. Where there is none, the world may give none.
pub fn references_are_those_of_the_world()
    ensures next { NextReferenceLaw }
    ensures none { NoReferenceLaw }
{}

/// Where a sound centre refines the world, some events are steps of the world, all of them offers of what waits for
/// handsets. These are a question of an application, a link that is up or down, and an operator's retry. The centre
/// refines the world to which they lead.
pub fn quiet_events_are_offers()
    ensures query { QueryLaw }
    ensures up { LinkUpLaw }
    ensures down { LinkDownLaw }
    ensures retry { RetryLaw }
{}

/// So are a session that is bound, one that ends and the answer to a receipt.
pub fn sessions_are_offers()
    ensures bound { BoundLaw }
    ensures unbound { UnboundLaw }
    ensures answered { AnsweredLaw }
{}

/// Where a sound centre refines the world, an event that ends messages is an event of a script, by steps of the centre.
/// The centre refines the world to which they lead. A cancel, or an operator's order, deletes the message; its report and
/// the next offers follow. At a tick messages expire with their reports, and old status reports are dropped. Frames are sent again, and
/// what is due is offered.
pub fn ends_are_events_of_scripts()
    ensures cancel { CancelLaw }
    ensures delete { DeleteLaw }
    ensures tick { TickLaw }
{}

/// So is a submission. Its message is in the table with all its parts, each under the next reference at its handset,
/// with a DELIVER of that part. Or it leads to the answer alone.
pub fn submissions_are_events_of_scripts()
    ensures submit { SubmitLaw }
{}
