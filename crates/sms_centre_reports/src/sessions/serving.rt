//! Which session serves an account.
ghost use Rattle.std.specs.Prelude.{◌≡◌, Some, None, if◌then◌else◌, option_map};
ghost use Rattle.sms_centre_reports.specs.open_reports.Serving.{receives_as, serving};
ghost use Rattle.sms_centre_reports.specs.sessions.SessionReceipts.{candidate_of, fewer};
ghost use Rattle.sms_centre_rows.specs.reports.Receipts.{is_unanswered};

use crate::sessions::session::ReceiptSession;
use sms_base::MessageId;

// A session that receives, and how many receipts are unanswered in it.
#[derive(Clone, Copy)]
pub(crate) struct Candidate {
    pub(crate) number: u32,
    pub(crate) unanswered: usize,
}

// The number of the session that receives for the account and has the fewest unanswered.
pub(crate) fn serving(seats: &[ReceiptSession], account: &[u8]) -> Option<u32>
    ensures { result ≡ option_map (λ s. s.number) (serving account.now seats.now) }
{
    let mut best = None;
    for seat in seats {
        let one = seated_for(seat, account);
        best = fewer(best, one);
    }
    match best {
        Some(found) => Some(found.number),
        None => None,
    }
}

// The session, if it receives for the account.
fn seated_for(seat: &ReceiptSession, account: &[u8]) -> Option<Candidate>
    ensures { result ≡ (if receives_as account.now seat.now then Some (candidate_of seat.now) else None) }
{
    if seat.receives() && account == seat.account() {
        Some(Candidate {
            number: seat.number(),
            unanswered: seat.unanswered().len(),
        })
    } else {
        None
    }
}

// Of the two the one with fewer unanswered; of equal ones the first.
fn fewer(one: Option<Candidate>, other: Option<Candidate>) -> Option<Candidate>
    ensures { result ≡ fewer one other }
{
    let Some(first) = one else {
        return other;
    };
    let Some(second) = other else {
        return Some(first);
    };
    if first.unanswered <= second.unanswered {
        Some(first)
    } else {
        Some(second)
    }
}

// Whether the message's receipt was sent in one of the sessions and not answered yet.
pub(crate) fn is_unanswered(seats: &[ReceiptSession], id: MessageId) -> bool
    ensures { result ≡ is_unanswered id seats.now }
{
    for seat in seats {
        if seat.awaits(id) {
            return true;
        }
    }
    false
}
