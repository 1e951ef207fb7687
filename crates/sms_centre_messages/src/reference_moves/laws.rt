//! Laws of what events change of messages and parts, over definitions alone.
ghost use Rattle.sms_centre_spec.specs.CentreEvent.{happened};
ghost use Rattle.sms_centre_spec.specs.Draft.{Core, changes_in};
ghost use Rattle.sms_centre_spec.specs.SoundCore.{IsEvent, IsSoundCore};
ghost use Rattle.sms_centre_spec.specs.declared.event.CentreEvent.{CentreEvent};
ghost use Rattle.sms_centre_messages.specs.reference_moves.ClaimMoves.{MoveReferenceIndex};

/// What every event changes of the messages and the parts of a sound centre are moves of what they lay claim to.
pub fn every_event_moves_reference_index()
    ensures { (event : CentreEvent) (c : Core) → IsSoundCore c → IsEvent event → MoveReferenceIndex (changes_in (happened event c).store) c.rows }
{}
