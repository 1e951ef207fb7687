//! The clock of a run.
use sms_base::Moment;

/// The clock of a run.
pub trait Clock {
    ghost use Rattle.std.specs.Prelude.{ℕ};

    /// The moments that it may show.
    ghost reads: { Self → ℕ → Type 0 };

    /// The present moment.
    fn now(&self) -> Moment
        ensures { reads self.now result };
}
