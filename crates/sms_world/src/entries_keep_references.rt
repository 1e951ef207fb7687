//! Laws: which reference a handset's entry has, as a script's course says.
//!
//! `sms_play` lists of each event of a handset which references it gives. Each new entry of the outbox gets one, and
//! each RP-SMMA that is sent for the first time. They say who holds a reference now. Whatever events the handset has,
//! an entry that has not ended is the last to which its reference was given (`specs/entries_keep_references/ReportedEntries.antt`). So an
//! answer under that reference, made for the last to whom it was given, was made for that entry.
ghost use Rattle.sms_world.specs.entries_keep_references.ReportedEntries.{EventLaw};

/// A course may record of each entry of a sound handset's outbox that has not ended that its reference was given to it last.
/// Then it records so of each after every event.
pub fn an_event_reports_its_entries()
    ensures agrees { EventLaw }
{}
