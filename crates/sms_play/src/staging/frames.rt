//! The frames that were sent, by number.
ghost use Rattle.std.specs.Prelude.{◌≡◌, option_copied};
ghost use Rattle.sms_play.specs.PlayState.{frame_at as frame_at_number};
ghost use Rattle.sms_play.specs.staging.Numbering.{AreNumbered};

use sms_base::Listed;
use sms_script::report::FrameRow;

/// The frame of that number, if frames are numbered from 1.
pub fn frame_at(number: u64, bag: &Listed<FrameRow>) -> Option<&FrameRow>
    ensures { AreNumbered 1 bag.now → option_copied result ≡ frame_at_number number bag.now }
{
    if number == 0 {
        return None;
    }
    let place = (number - 1) as usize;
    bag.as_slice().get(place)
}
