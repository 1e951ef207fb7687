//! Which frames of the world the frames of a side are.
//!
//! A side sends octets, and its link says what they carry: a kind, a reference and a holder. The world of
//! `sms_world_model` has frames with a handset, a kind, a reference, a TPDU and a holder. `specs/frames_pass_between_sides/FramesUp.antt`,
//! `specs/frames_pass_between_sides/FramesDown.antt` and `specs/frames_pass_between_sides/Between.antt` say which frame of the world each is. They also say
//! what its octets have to be: CP-DATA of the right side of its transaction, with the unit of that frame. A frame of
//! one side is then one that the other side may be handed.
ghost use Rattle.sms_world.specs.frames_pass_between_sides.Between.{DownLaw, UpLaw};

/// A frame that a handset sends is one that the centre may be handed. One that the centre sends says all that a handset
/// needs to be handed it.
pub fn frames_pass_between_sides()
    ensures up { UpLaw }
    ensures down { DownLaw }
{}
