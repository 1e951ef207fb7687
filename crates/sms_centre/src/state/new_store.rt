//! The rows of a new store.
ghost use Rattle.std.specs.Prelude.{◌≡◌};
ghost use Rattle.sms_centre_spec.specs.SoundRows.{IsSetup, IsSound, first_rows as first_rows_of};

use sms_base::Listed;
use sms_centre_spec::laws::a_centre_begins_sound;
use sms_centre_spec::{Rows, Setup};
use std::alloc::Global;

/// The rows of a new store: no message yet. They are sound.
pub fn first_rows(alloc: Global, setup: Setup) -> Rows
    ensures rows { result ≡ first_rows_of setup }
    ensures sound { IsSetup setup → IsSound result }
{
    a_centre_begins_sound();
    Rows {
        messages: Listed::new(alloc),
        parts: Listed::new(alloc),
        references: Listed::new(alloc),
        handsets: Listed::new(alloc),
        reports: Listed::new(alloc),
        priorities: Listed::new(alloc),
        bars: Listed::new(alloc),
        setup,
    }
}
