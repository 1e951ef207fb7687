//! Laws: a script's course is a run of the world.
//!
//! By `sms_play` each event of a script is an event of one core, its changes are committed, and its frames get the next
//! numbers. By `centre_runs_are_steps` and `handset_runs_are_steps` every event of a core is steps of the world that the
//! core refines. These laws combine both. A course **refines** the world (`specs/scripts_are_runs/PlayRefinement.antt`) under three conditions. The
//! centre and each handset refine it. Every frame of the course is one of the world's by its number. What each handset
//! accepted and joined is the world's, in order. Whatever a script does, with stops and restarts, its course is a run
//! of the world (`specs/scripts_are_runs/PlayRuns.antt`).
//!
//! `sms_play` also lists of each event of the centre which references its changes give, and to whom. The steps of the
//! world give exactly these, a row for each giving, at the moment of the event. So a reference's last holder is equal
//! in both. No two rows are of one holder, and parts are in the order of their allocations
//! (`specs/headline/SeenWorld.antt`). The premises rest on this. So do the references that a handset gives to its own
//! entries and RP-SMMAs. Each row is one of the world's upward givings, and each of those has its row.
ghost use Rattle.sms_world.specs.scripts_are_runs.PlayRuns.{BeginningLaw, EventLaw, RunLaw, ScriptLaw};
ghost use Rattle.sms_world.specs.scripts_are_runs.AllocationLaws.{AgreementLaw};

/// An event of a sound centre starts with rows and ends with rows. Let these show the worlds that its steps lead from and
/// to, and let its steps submit one message at most. Then the course records what was given after the event, if it did
/// before.
pub fn an_event_reports_its_allocations()
    ensures agrees { AgreementLaw }
{}

/// Each event of a script, whole, stopped or a restart, is steps of the world that its course sees. The course after it sees
/// where they lead.
pub fn an_event_is_steps()
    ensures event { EventLaw }
{}

/// A new script's course sees the empty world; and whatever its events, they are a run from there to a world that the course sees.
pub fn a_script_is_a_run()
    ensures beginning { BeginningLaw }
    ensures run { RunLaw }
    ensures script { ScriptLaw }
{}
