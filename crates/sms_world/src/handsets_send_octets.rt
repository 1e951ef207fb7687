//! What a handset sends is octets.
//!
//! The definitions of the layers are over lists of numbers. That each number is one octet is said by the code's types
//! where there is code, and here of the definitions alone. A handset **keeps octets**
//! (`specs/handsets_send_octets/Keeping.antt`) where the TPDUs of its outbox and the frames that its link may send again
//! are octets. The references that it gives next are octets, too. A new handset keeps octets. Whatever events it has,
//! stopped or restarted or not, it keeps them, and all that it sends is octets
//! (`specs/handsets_send_octets/OctetLaws.antt`). A frame needs one condition: its unit is answered under a reference of
//! one octet, as in every frame of octets. A text of the owner has to be a text.
ghost use Rattle.sms_world.specs.handsets_send_octets.OctetLaws.{ArrivalLaw, RunLaw, EventLaw, RestartLaw, StartLaw};

/// Each frame that a handset sends is octets, whatever it meets and however often it is stopped or restarts.
pub fn what_is_sent_is_octets()
    ensures event { EventLaw }
    ensures restart { RestartLaw }
    ensures start { StartLaw }
    ensures run { RunLaw }
{}

/// A frame of octets is one that may arrive.
pub fn a_frame_of_octets_may_arrive()
    ensures { ArrivalLaw }
{}
