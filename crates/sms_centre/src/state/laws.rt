//! Laws of the centre between two events, over its definitions alone.
ghost use Rattle.sms_centre_messages.specs.references.ReferenceIndex.{Represents as ReferencesRepresent};
ghost use Rattle.sms_centre_messages.specs.message_index.MessageIndex.{Represents as MessagesRepresent};
ghost use Rattle.sms_centre_rows.specs.messages.Messages.{message_key, part_key};
ghost use Rattle.sms_centre_reports.specs.sessions.Awaited.{AreAwaited};
ghost use Rattle.sms_rows.specs.table.Table.{Rises};
ghost use Rattle.sms_centre_spec.specs.Draft.{Core, bars_in, draft_of, messages_in, parts_in, reports_in};
ghost use Rattle.sms_centre_spec.specs.SoundCore.{IsSoundCore};
ghost use Rattle.sms_centre.specs.state.CentreState.{Represents, CentreStateOf};

/// The state between events is all that the calls of an event ask for as it begins. The centre is sound. What is in
/// memory of messages and their claims is that of the draft. Sessions wait for what they may wait for.
pub fn a_state_meets_what_events_require()
    ensures sound { (c : Core) (s : CentreStateOf) → Represents c s → IsSoundCore c }
    ensures messages { (c : Core) (s : CentreStateOf) → Represents c s
        → MessagesRepresent s.messages (messages_in (draft_of c).store) (parts_in (draft_of c).store) }
    ensures reference_index { (c : Core) (s : CentreStateOf) → Represents c s
        → ReferencesRepresent s.reference_index (bars_in (draft_of c).store) (messages_in (draft_of c).store) (parts_in (draft_of c).store) }
    ensures awaited { (c : Core) (s : CentreStateOf) → Represents c s
        → AreAwaited (messages_in (draft_of c).store) (reports_in (draft_of c).store) (draft_of c).bindings.sessions }
    ensures message_order { (c : Core) (s : CentreStateOf) → Represents c s → Rises message_key c.rows.messages }
    ensures part_order { (c : Core) (s : CentreStateOf) → Represents c s → Rises part_key c.rows.parts }
{}
