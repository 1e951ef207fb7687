//! What the types of a script's events give. The ticks of the centre are at moments that time stamps write, and the texts of
//! owners are UTF-8.
ghost use Rattle.sms_world.specs.headline.TypedEvents.{AreTyped, IsTextAct, IsTyped};
ghost use Rattle.sms_world.specs.scripts_are_runs.Happening.{IsGoodAct, IsGoodTick};

use sms_base::Moment;
use sms_script::{Act, EventSide, WorldEvent};

fn tick_is_typed(side: &EventSide<'_>, now: Moment)
    ensures { IsGoodTick side.now now }
{
    match side {
        EventSide::Centre => {
            // The call gives the range.
            let _seconds = now.seconds();
        }
        EventSide::Handset(_) => (),
    }
}

fn act_is_typed(act: &Act<'_>)
    ensures good { IsGoodAct act.now }
    ensures text { IsTextAct act.now }
{
    match act {
        Act::Write { text, .. } => text.is_in_utf8(),
        Act::Tick { side, now } => tick_is_typed(side, *now),
        _ => (),
    }
}

fn is_typed(event: &WorldEvent<'_>)
    ensures { IsTyped event.now }
{
    match event {
        WorldEvent::Whole(act) => act_is_typed(act),
        WorldEvent::Stopped(_, act) => act_is_typed(act),
        WorldEvent::Restart(_) => (),
    }
}

/// Whatever the events, they are such as their types have them. It takes no memory.
pub(crate) fn are_typed(events: &[WorldEvent<'_>])
    ensures { AreTyped events.now }
{
    for event in events {
        is_typed(event);
    }
}
