//! Every event of the centre, and a whole course of them, are steps of the world.
//!
//! Offers follow every event of the centre. So between two events nothing that is due waits for a link that is ready
//! (`specs/centre_runs_are_steps/Offered.antt`). A new centre has nothing to offer, and one that starts again has no link up
//! until its first tick. Meanwhile a question of an application and the answer to a receipt send nothing to any
//! handset.
//!
//! A frame that is handed over is an event of a script, by steps of the centre (`specs/centre_runs_are_steps/FrameLaws.antt`).
//! The links answer it with CP-ACK or CP-ERROR, or send again what they sent. A SUBMIT becomes a message or is refused.
//! RP-SMMA makes all that waits due. An answer settles, fails or puts off what was under way; its report and the next
//! offers follow.
//!
//! So every event of a sound centre that refines the world is steps of it, as `specs/centre_runs_are_steps/RunEvents.antt`
//! says of each. A question is no step at all. So is a whole course of events (`specs/centre_runs_are_steps/Run.antt`), with
//! stops after the store call, restarts, and what handsets do between them. It begins in any world that the centre
//! refines; for a new store that is the empty one.
ghost use Rattle.sms_world.specs.centre_runs_are_steps.Run.{RunLaw, FirstRunLaw};
ghost use Rattle.sms_world.specs.centre_runs_are_steps.RunEvents.{EventLaw};
ghost use Rattle.sms_world.specs.centre_runs_are_steps.PlanLaws.{PlanLaw};
ghost use Rattle.sms_world.specs.centre_runs_are_steps.TruthfulRows.{DeliveredLaw, EpisodeLaw, OnceLaw, ReportedLaw};
ghost use Rattle.sms_world.specs.centre_runs_are_steps.FrameLaws.{FrameLaw};
ghost use Rattle.sms_world.specs.centre_runs_are_steps.OfferedLaws.{AnsweredLaw, BackLaw, EventLaw as OfferedLaw, FirstLaw, QueryLaw};

/// Where a link is ready, nothing that waits for its handset is due. It is so of a new centre, of one that starts
/// again, and after every event of a sound centre.
pub fn what_can_be_sent_is_offered()
    ensures first { FirstLaw }
    ensures back { BackLaw }
    ensures event { OfferedLaw }
{}

/// While it is so, a question and the answer to a receipt send nothing to handsets, and leave their links as they are.
pub fn some_events_offer_nothing()
    ensures query { QueryLaw }
    ensures answered { AnsweredLaw }
{}

/// Where a sound centre refines the world, a frame that is handed to it is an event of a script, by steps of the
/// centre. The centre refines the world to which they lead.
pub fn a_frame_is_steps()
    ensures frame { FrameLaw }
{}

/// Every event of a sound centre that refines the world is steps of it, all of them the centre's own. The centre
/// refines the world to which they lead.
pub fn every_event_is_steps()
    ensures event { EventLaw }
{}

/// What the definition plans continues in the world: its frames are added to those that were sent. The centre that has
/// adopted it is sound and refines the world to which it led, with everything offered that may be.
pub fn plans_are_steps()
    ensures plan { PlanLaw }
{}

/// A centre's course is steps of the world, episode by episode, with what handsets do between them. It may have any
/// events, stops and restarts. It begins in any world that the centre refines, and for a new store in the empty one.
pub fn a_run_is_steps()
    ensures run { RunLaw }
    ensures first { FirstRunLaw }
{}

/// An episode is a run of the world. Wherever a run led that the centre refines, a receipt or status report is of a
/// message that has ended. It is the only one, and has the state of the message's row. While frames are timely, a
/// message counts as delivered only if its handset accepted each of its parts exactly once. What it accepted are the
/// octets of the part's row. No part was accepted twice.
pub fn rows_agree_with_what_was_accepted()
    ensures runs { EpisodeLaw }
    ensures reported { ReportedLaw }
    ensures delivered { DeliveredLaw }
    ensures once { OnceLaw }
{}
