//! How an arrival at a side of a script is drawn.
use crate::drawing::Row;
use crate::watching::lanes::Lanes;
use sms_play::judging::Scene;
use sms_play::staging::frame_at;
use sms_script::report::FrameRow;
use sms_script::{Act, WorldEvent};
use sms_trace_files::picture::Sign;

fn asked(lanes: &Lanes, name: &[u8]) -> Row {
    Row::Arrow(lanes.request(name))
}

fn done(lanes: &Lanes, handset: &[u8]) -> Row {
    Row::Sign(lanes.handset(handset), Sign::Act)
}

fn arrived(lanes: &Lanes, frame: Option<&FrameRow>) -> Option<Row> {
    match frame {
        Some(frame) => Some(Row::Arrow(lanes.way(frame))),
        None => None,
    }
}

/// The row of an act: it reaches a side, or is done there. A frame that was not sent has none.
pub(crate) fn row_of<S: Scene>(lanes: &Lanes, act: &Act<'_>, scene: &S) -> Option<Row> {
    match act {
        Act::Submit(submission) => Some(asked(lanes, submission.name.as_slice())),
        Act::Query { name, .. } => Some(asked(lanes, name.as_slice())),
        Act::Cancel { name, .. } => Some(asked(lanes, name.as_slice())),
        Act::Write { handset, .. } => Some(done(lanes, handset.as_slice())),
        Act::Delete { handset, .. } => Some(done(lanes, handset.as_slice())),
        Act::Discard { handset, .. } => Some(done(lanes, handset.as_slice())),
        Act::Deliver(number) => arrived(lanes, frame_at(*number, scene.bag())),
        Act::Tick { side, .. } => Some(Row::Sign(lanes.side(side), Sign::Tick)),
    }
}

/// Whether it is an act of an owner, which is done at once and drawn with its answer.
pub(crate) fn is_owners(act: &Act<'_>) -> bool {
    matches!(
        act,
        Act::Write { .. } | Act::Delete { .. } | Act::Discard { .. }
    )
}

/// What the ladder shows of an event, if that is a row of its own.
pub(crate) fn row_of_event<S: Scene>(
    lanes: &Lanes,
    event: &WorldEvent<'_>,
    scene: &S,
) -> Option<Row> {
    match event {
        WorldEvent::Whole(act) => row_of(lanes, act, scene),
        WorldEvent::Stopped(_, act) => row_of(lanes, act, scene),
        WorldEvent::Restart(side) => Some(Row::Sign(lanes.side(side), Sign::Restart)),
    }
}
