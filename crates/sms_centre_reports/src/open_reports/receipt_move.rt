//! What becomes of receipts.
ghost use Rattle.std.specs.Prelude.{◌≡◌, ℕ, ◌+◌, min};
ghost use Rattle.sms_centre_reports.specs.open_reports.ReceiptMoves.{moved};

use sms_base::Moment;
use sms_centre_rows::waiting::Progress;

// Seconds until a receipt is sent again.
const DELAY: u64 = 60;

/// What becomes of a receipt that is open.
#[derive(Clone, Copy)]
pub(crate) enum ReceiptMove {
    /// The application accepted it.
    Accepted,
    /// The application refused it, or the session ended in which it was sent: it is sent again after a minute.
    PutOff(Moment),
    /// The receipt is sent now.
    Due(Moment),
}

impl ReceiptMove {
    /// How far the receipt is then.
    pub(crate) fn progress(self, before: &Progress) -> Progress
        ensures { result ≡ moved self before.now }
    {
        match self {
            ReceiptMove::Accepted => Progress {
                is_done: true,
                attempts: before.attempts,
                due: before.due,
            },
            ReceiptMove::PutOff(moment) => Progress {
                is_done: before.is_done,
                attempts: before.attempts.saturating_add(1),
                due: moment.plus(DELAY),
            },
            ReceiptMove::Due(moment) => Progress {
                is_done: before.is_done,
                attempts: before.attempts,
                due: moment,
            },
        }
    }
}
