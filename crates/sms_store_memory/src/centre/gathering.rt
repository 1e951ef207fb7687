//! The keep in memory as the store of a centre.
ghost use Rattle.std.specs.Prelude.{refl};
ghost use Rattle.sms_centre_spec.proofs.bodies.Bodies.{bodies_given};

use crate::centre::keep::MemoryKeep;
use sms_centre_spec::Rows;
use sms_centre_spec::bodies::CentreStore;
use sms_rows::keep::{Keep, KeepError};

impl CentreStore for MemoryKeep {
    // It is never closed.
    fn gather(&mut self) -> Result<Rows, KeepError> {
        self.load()
    }

    ghost makes = { λ changes rows. refl };

    ghost stores = { bodies_given };
}
