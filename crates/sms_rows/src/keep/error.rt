//! Refusals of a keep.
ghost use Rattle.std.specs.Prelude.{◌≡◌};
ghost use Rattle.sms_rows.specs.keep.FaultCodes.{keep_code};

use thiserror::Error;

/// Why a keep refused a call.
#[derive(Clone, Copy, Debug, PartialEq, Eq, Error)]
pub enum KeepError {
    /// The store is of this kind, but of an earlier version.
    #[error("the store is of an earlier version")]
    OldVersion,
    /// The store is not of this kind, or of a later version.
    #[error("this is no such store")]
    NotThisStore,
    /// The disk failed, or refused for another reason than that it is full.
    #[error("the store's disk failed")]
    Disk,
    /// The disk, or the file, takes no further octets. A later call may find room.
    #[error("the store's disk is full")]
    Full,
    /// No memory was left, or a value is too big for the store.
    #[error("out of memory")]
    NoMemory,
    /// A limit on steps was met, which the caller had set.
    #[error("the store was interrupted")]
    Interrupted,
    /// An earlier failure closed the store. It answers nothing else until it is opened again.
    #[error("the store is closed")]
    Closed,
}

impl KeepError {
    /// The code of the refusal in reports, K1 to K7.
    pub fn code(self) -> &'static str
        ensures { result.now ≡ keep_code self }
    {
        match self {
            KeepError::OldVersion => "K1",
            KeepError::NotThisStore => "K2",
            KeepError::Disk => "K3",
            KeepError::NoMemory => "K4",
            KeepError::Interrupted => "K5",
            KeepError::Closed => "K6",
            KeepError::Full => "K7",
        }
    }
}
