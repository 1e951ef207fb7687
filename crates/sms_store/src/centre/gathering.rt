//! The rows once more, as a centre wants them after a refused commit.
ghost use Rattle.std.specs.Prelude.{refl};
ghost use Rattle.sms_centre_spec.proofs.bodies.Bodies.{bodies_given};

use crate::centre::CentreKeep;
use sms_centre_spec::Rows;
use sms_centre_spec::bodies::CentreStore;
use sms_rows::keep::{Keep, KeepError};
use sqlite::Alter;

impl<S: Alter> CentreStore for CentreKeep<S> {
    fn gather(&mut self) -> Result<Rows, KeepError> {
        self.load()
    }

    ghost makes = { λ changes rows. refl };

    ghost stores = { bodies_given };
}
