//! Laws of how a script's course grows.
ghost use Rattle.sms_play.specs.growth.Growth.{GrowthLaw};

/// Every event of a script whose centre is sound keeps what the course has, where what the centre gets is an event.
pub fn an_event_extends_the_play()
    ensures { GrowthLaw }
{}
