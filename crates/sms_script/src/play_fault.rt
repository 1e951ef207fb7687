//! Why a script is not played to its end.
ghost use Rattle.std.specs.Prelude.{◌≡◌};

use thiserror::Error;

/// Why a script is not played to its end, with the number of the event, from 1.
#[derive(Clone, Copy, Debug, PartialEq, Eq, Error)]
pub enum PlayFault {
    /// F1: no frame of that number was sent.
    #[error("event {event}: no such frame")]
    NoSuchFrame { event: u64 },
    /// F2: the script has no handset of that number.
    #[error("event {event}: no such side")]
    NoSuchSide { event: u64 },
    /// F3: the script has no account of that name.
    #[error("event {event}: no such account")]
    NoSuchAccount { event: u64 },
    /// F4: there was no memory.
    #[error("event {event}: out of memory")]
    NoMemory { event: u64 },
    /// F5: the head is none that can be played.
    #[error("event 0: bad setup")]
    BadSetup,
}

impl PlayFault {
    ghost use Rattle.sms_script.specs.FaultCodes.{play_code, event_number};

    /// The code of the fault in reports, F1 to F5.
    pub fn code(self) -> &'static str
        ensures { result.now ≡ play_code self }
    {
        match self {
            PlayFault::NoSuchFrame { .. } => "F1",
            PlayFault::NoSuchSide { .. } => "F2",
            PlayFault::NoSuchAccount { .. } => "F3",
            PlayFault::NoMemory { .. } => "F4",
            PlayFault::BadSetup => "F5",
        }
    }

    /// The number of the event that it is about: 0 is the head.
    pub fn event(self) -> u64
        ensures { result ≡ event_number self }
    {
        match self {
            PlayFault::NoSuchFrame { event }
            | PlayFault::NoSuchSide { event }
            | PlayFault::NoSuchAccount { event }
            | PlayFault::NoMemory { event } => event,
            PlayFault::BadSetup => 0,
        }
    }
}
