//! Why a part is not added to a joiner.
use crate::Part;
use thiserror::Error;

/// Why a part is not added. The part is handed back.
#[derive(Debug, Drop, Error)]
pub enum AddError {
    /// A part of its number is there already, or its key is that of another message.
    #[error("the part has no place among those of the message")]
    NoPlace(Part),
}

impl AddError {
    ghost use Rattle.std.specs.Prelude.{◌≡◌};
    ghost use Rattle.sms_concat.specs.joiner.FaultCodes.{add_code, part_of_error};

    /// The code of the fault in reports, C3.
    pub fn code(&self) -> &'static str
        ensures { result.now ≡ add_code self.now }
    {
        match self {
            AddError::NoPlace(_) => "C3",
        }
    }

    /// The part that was not added.
    pub fn into_part(self) -> Part
        ensures { result ≡ part_of_error self }
    {
        match self {
            AddError::NoPlace(part) => part,
        }
    }
}
