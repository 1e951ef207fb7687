//! The verdict of the watcher in the end.
ghost use Rattle.std.specs.Prelude.{◌≡◌, ⊤, Option};
ghost use Rattle.sms_play.specs.PlayState.{PlayState};
ghost use Rattle.sms_script.specs.declared.report.Broken.{Broken as BrokenOf};

use sms_script::report::Broken;
use sms_trace::watching::{Capture, Judge, Ladder, Watcher};

/// Who looks on while a script is played, and reports in the end which event was the first that broke a premise.
pub(crate) trait Finder: Watcher {
    /// The verdict reports that where this event was the first. Who judges nothing may report anything.
    ghost reports: { Option BrokenOf → Option BrokenOf → Type 0 } = { λ reported broken. ⊤ };

    /// The first event that broke a premise.
    fn verdict(&self) -> Option<Broken>
        ensures { (broken : Option BrokenOf) (c : PlayState) → Self.has_seen self.now broken c → reports result broken };
}

impl Finder for Judge {
    ghost use Rattle.std.specs.Prelude.{◌≡◌};

    ghost reports = { λ reported broken. reported ≡ broken };

    fn verdict(&self) -> Option<Broken> {
        self.broken()
    }
}

// A ladder judges nothing.
impl Finder for Ladder {
    fn verdict(&self) -> Option<Broken> {
        None
    }
}

// Nor does a capture.
impl Finder for Capture {
    fn verdict(&self) -> Option<Broken> {
        None
    }
}
