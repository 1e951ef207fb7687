//! Every event of a handset is steps of the world, all of them that handset's own.
//!
//! A handset **refines** the world (`specs/handset_runs_are_steps/Refinement.antt`) where its rows, and what its link may send again, can
//! be looked up there and back. A sound handset that refines the world refines, after any event, the world that the
//! event's steps lead to. This is said of the core's definitions and, in the words of the clauses of `Handset::plan`,
//! of what it plans and adopts. What its changes put is what the world accepts and joins, in order. A stop after the
//! store call is those steps with no frame sent; a restart is none. What others do keeps this.
ghost use Rattle.sms_world.specs.handset_runs_are_steps.Run.{RunLaw, FirstRunLaw};
ghost use Rattle.sms_world.specs.handset_runs_are_steps.EventLaws.{DeleteLaw, DiscardLaw, FrameLaw, RestartLaw, TickLaw, WriteLaw};
ghost use Rattle.sms_world.specs.handset_runs_are_steps.OthersLaws.{CentreLaw, OtherLaw};
ghost use Rattle.sms_world.specs.handset_runs_are_steps.PlanLaws.{AdoptedLaw, PlanLaw};
ghost use Rattle.sms_world.specs.handset_runs_are_steps.StopLaws.{StartLaw, StopLaw, StoppedLaw};

/// A sound handset that refines the world is handed a frame of it, or one that carries nothing. Then the frame's event
/// is steps of the world. All of them are its own, and it refines the world to which they lead.
pub fn a_frame_is_steps()
    ensures { FrameLaw }
{}

/// So is a tick; and a restart is no step at all.
pub fn a_tick_is_steps()
    ensures tick { TickLaw }
    ensures restart { RestartLaw }
{}

/// So is what the owner does, where it is not refused.
pub fn acts_are_steps()
    ensures write { WriteLaw }
    ensures delete { DeleteLaw }
    ensures discard { DiscardLaw }
{}

/// What `Handset::plan` plans continues in the world, whatever the event. Its frames are added to those that were sent,
/// and what its changes put is accepted and joined. The handset that has adopted it refines the world to which it led.
pub fn plans_are_steps()
    ensures event { PlanLaw }
    ensures adopted { AdoptedLaw }
{}

/// What a stop leaves after the store call refines the world without the event's frames. An event that was stopped so
/// is steps of the world that send nothing. A handset without rows refines the empty world.
pub fn stops_are_refined()
    ensures stopped { StoppedLaw }
    ensures stop { StopLaw }
    ensures start { StartLaw }
{}

/// What another handset or the centre does leaves what a handset sees, and what it accepted and joined.
pub fn other_steps_keep_the_handset_refinement()
    ensures handset { OtherLaw }
    ensures centre { CentreLaw }
{}

/// A handset's course is steps of the world, episode by episode, with what others do between them. It may have any
/// events, stops and restarts. It begins in any world that the handset refines, and for a new handset in the empty one.
pub fn a_run_is_steps()
    ensures run { RunLaw }
    ensures first { FirstRunLaw }
{}
