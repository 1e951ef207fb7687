//! Laws: the premises decided on a script's course are those of the world.
//!
//! `sms_play` decides of each event whether a frame that is handed over is timely. It decides, too, whether what the event
//! submits begins a round of its key only where it may. `sms_world_model` supposes both of the world. Where a course refines
//! a world, the one is decided exactly where the other holds: of frames here, of whole events in `headline`
//! (`specs/headline/OneRun.antt`).
ghost use Rattle.sms_world.specs.premises_are_decided.PremiseLaws.{AlikeLaw, FreshLaw, MayBeginLaw, TimelyLaw};

/// Where a course shows a world, an event is decided timely exactly where each frame that it hands over is timely in that world.
pub fn timely_is_decided()
    ensures { TimelyLaw }
{}

/// A submission is decided fresh exactly where each of its parts may begin a round. The decision depends on the parts that were given
/// before and on what handsets accepted of each key, and on nothing else.
pub fn fresh_is_decided()
    ensures begins { MayBeginLaw }
    ensures parts { FreshLaw }
    ensures alike { AlikeLaw }
{}
