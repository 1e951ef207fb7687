//! Frames that go out, under the next numbers.
ghost use Rattle.std.specs.Prelude.{◌≡◌, OnOk};
ghost use Rattle.sms_play.specs.CentreSide.{all_sent as all_sent_down};
ghost use Rattle.sms_play.specs.PlayState.{sent as sent_of};
ghost use Rattle.sms_play.specs.HandsetSide.{all_sent as all_sent_up};

use sms_base::{Digits, Listed};
use sms_centre_rows::waiting::Sent;
use sms_link::Outgoing;
use sms_script::report::{Direction, FrameRow};
use std::alloc::AllocError;

// The frame goes out under the next number.
fn send(
    direction: Direction,
    handset: Digits,
    frame: Outgoing,
    bag: &mut Listed<FrameRow>,
) -> Result<(), AllocError>
    ensures { OnOk result (bag.new ≡ sent_of direction handset frame bag.old) }
{
    // So many frames fit in no memory.
    let Some(number) = (bag.len() as u64).checked_add(1) else {
        return Err(AllocError);
    };
    bag.push(FrameRow {
        number,
        direction,
        handset,
        carried: frame.carried,
        octets: frame.octets,
    })
}

/// Adds the frames of a handset, under the next numbers.
pub(crate) fn send_up(
    handset: Digits,
    frames: Listed<Outgoing>,
    bag: &mut Listed<FrameRow>,
) -> Result<(), AllocError>
    ensures { OnOk result (bag.new ≡ all_sent_up handset frames bag.old) }
{
    for frame in frames.into_vec() {
        send(Direction::Up, handset, frame, bag)?;
    }
    Ok(())
}

/// Adds the frames of the centre, under the next numbers.
pub(crate) fn send_down(frames: Listed<Sent>, bag: &mut Listed<FrameRow>) -> Result<(), AllocError>
    ensures { OnOk result (bag.new ≡ all_sent_down frames bag.old) }
{
    for sent in frames.into_vec() {
        send(Direction::Down, sent.handset.digits(), sent.frame, bag)?;
    }
    Ok(())
}
