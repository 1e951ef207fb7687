//! A clock and a gate that hold nothing up.
use sms_base::Moment;
use sms_keeper::{Clock, Gate};

/// A clock that always shows one moment.
#[derive(Clone, Copy)]
pub(crate) struct Still(pub(crate) Moment);

impl Clock for Still {
    ghost use Rattle.std.specs.Prelude.{◌≡◌};

    ghost reads = { λ c m. m ≡ c.0 };

    fn now(&self) -> Moment {
        self.0
    }
}

/// A gate that is open.
#[derive(Clone, Copy)]
pub(crate) struct Open;

impl Gate for Open {
    fn pass(&self) {}
}
