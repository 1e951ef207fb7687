//! What the end of a transfer means.
ghost use Rattle.std.specs.Prelude.{◌≡◌};
ghost use Rattle.sms_centre_spec.specs.Transfers.{cause_verdict as cause_verdict_of, is_temporary as is_temporary_of, verdict_of as verdict_of_ending};

use sms_link::Ending;

/// What the end of a transfer to a handset means for what was transferred (3GPP TS 24.011 8.2.5.4).
#[derive(Clone, Copy, PartialEq, Eq)]
pub enum Verdict {
    /// The transfer was acknowledged.
    Settled,
    /// The handset has no memory.
    HandsetFull,
    /// The part is tried again later.
    Again,
    /// The part is never tried again.
    Refused,
    /// The part waits no more: a late answer changes nothing.
    Late,
}

// Destination out of order, network out of order, temporary failure, congestion, resources unavailable.
fn is_temporary(cause: u8) -> bool
    ensures { result ≡ is_temporary_of cause }
{
    cause == 27 || cause == 38 || cause == 41 || cause == 42 || cause == 47
}

// 22: memory capacity exceeded.
fn cause_verdict(cause: u8) -> Verdict
    ensures { result ≡ cause_verdict_of cause }
{
    if cause == 22 {
        return Verdict::HandsetFull;
    }
    if is_temporary(cause) {
        return Verdict::Again;
    }
    Verdict::Refused
}

/// What this end means for what was transferred, if it still waits.
pub fn verdict_of(ending: &Ending) -> Verdict
    ensures { result ≡ verdict_of_ending ending.now }
{
    match ending {
        Ending::Acknowledged => Verdict::Settled,
        Ending::Refused { cause, .. } => cause_verdict(cause.number()),
        Ending::Wrong | Ending::Lost => Verdict::Again,
    }
}
