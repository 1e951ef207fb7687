//! Laws of a handset's events, over their definitions alone.
ghost use Rattle.sms_player_handset.specs.Meeting.{KeepsMomentsLaw, RevisedLaw};

use sms_handset::laws::rows_are_the_changes;

/// Only ticks change the moment, and it never decreases.
pub fn only_ticks_advance_time()
    ensures { KeepsMomentsLaw }
{}

/// The rows that an event leads to are the rows with its changes.
pub fn rows_rest_on_the_changes()
    ensures { RevisedLaw }
{
    rows_are_the_changes();
}
