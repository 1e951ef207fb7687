//! A store without rows.
ghost use Rattle.std.specs.Prelude.{None};
ghost use Rattle.sms_relay_run.specs.EmptyStore.{empty_store};

use sms_base::Octets;
use sms_rows::keep::{BodyKeep, KeepError, RowStore};
use sms_rows::table::Key;

/// A store without rows, which a centre without rows asks for nothing.
#[derive(Drop)]
pub(crate) struct NoBodies {}

impl RowStore for NoBodies {
    type Rows = ();

    ghost state = { λ keep. empty_store };
}

impl BodyKeep for NoBodies {
    ghost body_of = { λ rows key. None };

    fn body(&mut self, _key: Key) -> Result<Option<Octets>, KeepError> {
        Ok(None)
    }
}
