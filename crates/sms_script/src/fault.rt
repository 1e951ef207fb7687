//! Why a text is no script.
ghost use Rattle.std.specs.Prelude.{◌≡◌};
ghost use Rattle.sms_script.specs.declared.fault.ScriptFault.TheVariants.{NoMemory as NoMemoryOf};

use std::alloc::AllocError;
use thiserror::Error;

/// What is wrong with a line.
#[derive(Clone, Copy, Debug, PartialEq, Eq, Error)]
pub enum LineFault {
    /// The line says nothing that is known.
    #[error("bad line")]
    BadLine,
}

/// Why there is no script.
#[derive(Clone, Copy, Debug, PartialEq, Eq, Error)]
pub enum ScriptFault {
    /// The line of that number, from 1, is none that may be there, or is missing.
    #[error("line {0}: bad line")]
    BadLine(u64),
    /// A growth was refused. No line is bad.
    #[error("out of memory")]
    NoMemory,
}

impl From<AllocError> for ScriptFault {
    ghost from_gives = { λ _ e. e ≡ NoMemoryOf };

    fn from(_error: AllocError) -> ScriptFault {
        ScriptFault::NoMemory
    }
}
