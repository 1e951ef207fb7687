//! How a transfer that the handset began ended.
ghost use Rattle.std.specs.Prelude.{◌≡◌};
ghost use Rattle.sms_handset_rows.specs.outbox.Answers.{error_verdict as error_verdict_of, is_duplicate as is_duplicate_tpdu};
ghost use Rattle.sms_handset_rows.specs.outbox.Answers.{is_temporary as is_temporary_cause, verdict_of as verdict_of_ending};

use sms_base::Octets;
use sms_link::Ending;
use sms_relay::RpCause;
use sms_tpdu::{Carrier, Down, FailureCause, read_down};

/// How a transfer that the handset began ended.
#[derive(Clone, Copy, PartialEq, Eq)]
pub enum TransferEnd {
    /// RP-ACK under its reference.
    Acknowledged,
    /// RP-ERROR under its reference, for a cause that passes.
    Temporary,
    /// RP-ERROR under its reference: the centre holds the message already.
    Duplicate,
    /// Any other RP-ERROR under its reference.
    Refused,
    /// No answer, or one that is none to it: of another reference, of another kind, or one that can't be read.
    Lost,
}

/// What the end of its transfer says of an entry.
pub fn verdict_of(ending: &Ending) -> TransferEnd
    ensures { result ≡ verdict_of_ending ending.now }
{
    match ending {
        Ending::Acknowledged => TransferEnd::Acknowledged,
        Ending::Refused { cause, tpdu } => error_verdict(*cause, tpdu),
        Ending::Wrong | Ending::Lost => TransferEnd::Lost,
    }
}

fn error_verdict(cause: RpCause, tpdu: &Option<Octets>) -> TransferEnd
    ensures { result ≡ error_verdict_of cause tpdu.now }
{
    if is_temporary(cause) {
        TransferEnd::Temporary
    } else if is_duplicate(tpdu) {
        TransferEnd::Duplicate
    } else {
        TransferEnd::Refused
    }
}

// Network out of order, temporary failure, congestion, resources unavailable.
fn is_temporary(cause: RpCause) -> bool
    ensures { result ≡ is_temporary_cause cause }
{
    let number = cause.number();
    number == 38 || number == 41 || number == 42 || number == 47
}

// Whether the report says that the short message is a duplicate.
fn is_duplicate(tpdu: &Option<Octets>) -> bool
    ensures { result ≡ is_duplicate_tpdu tpdu.now }
{
    match tpdu {
        Some(octets) => match read_down(octets.as_slice(), Carrier::InError) {
            Ok(Down::SubmitReport(report)) => {
                report.failure_cause == Some(FailureCause::DuplicateShortMessage.octet())
            }
            _ => false,
        },
        None => false,
    }
}
