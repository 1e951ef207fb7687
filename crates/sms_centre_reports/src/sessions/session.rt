//! Sessions of applications.
ghost use Rattle.std.specs.Prelude.{◌≡◌, [], ◌∷◌, ◌++◌, IfOk};
ghost use Rattle.sms_centre_rows.specs.messages.SplitReferences.{is_among};
ghost use Rattle.sms_centre_rows.specs.reports.Receipts.{session_key, without_id};
ghost use Rattle.sms_centre_reports.specs.sessions.Seats.{seat_of};

use sms_base::{Listed, MessageId, Octets};
use sms_rows::table::{Key, Row};
use std::alloc::{AllocError, Global};
use std::marker::Model;
use std::sync::Arc;

// What memory has of a session.
#[derive(Drop)]
pub(crate) struct SessionEntry {
    number: u32,
    account: Arc<Octets>,
    receives: bool,
    unanswered: Listed<MessageId>,
}

/// A session that is bound, and the messages whose receipts were sent in it and not answered yet. Copies share it.
#[derive(Drop)]
pub struct ReceiptSession {
    seated: Arc<SessionEntry>,
}

impl Model for ReceiptSession {
    ghost use Rattle.sms_centre_rows.specs.reports.Receipts.{Session};

    ghost Value = { Session };

    ghost use Rattle.sms_centre_reports.specs.sessions.Seats.{seat_of};

    ghost view = { λ s. seat_of s.seated.value };
}

impl Row for ReceiptSession {
    ghost key = { session_key };

    fn key(&self) -> Key {
        Key::of(u64::from(self.number()))
    }
}

impl ReceiptSession {
    /// A session of the account, in which nothing was sent yet.
    pub fn new(
        alloc: Global,
        number: u32,
        account: &[u8],
        receives: bool,
    ) -> Result<ReceiptSession, AllocError>
        ensures { IfOk result (λ s. s ≡ record { number = number; account = account.now; receives = receives; unanswered = [] }) }
    {
        let account = Octets::copy_of(alloc, account)?;
        let account = Arc::new(alloc, account)?;
        let seated = Arc::new(
            alloc,
            SessionEntry {
                number,
                account,
                receives,
                unanswered: Listed::new(alloc),
            },
        )?;
        Ok(ReceiptSession { seated })
    }

    /// A copy that shares the session's state.
    pub fn share(&self) -> Result<ReceiptSession, AllocError>
        ensures { IfOk result (λ copy. copy ≡ self.now) }
    {
        let seated = Arc::try_clone(&self.seated)?;
        Ok(ReceiptSession { seated })
    }

    /// The session's number.
    pub fn number(&self) -> u32
        ensures { result ≡ self.now.number }
    {
        self.seated.number
    }

    /// The name of its account.
    pub fn account(&self) -> &[u8]
        ensures { result.now ≡ self.now.account }
    {
        self.seated.account.as_slice()
    }

    /// Whether it takes receipts.
    pub fn receives(&self) -> bool
        ensures { result ≡ self.now.receives }
    {
        self.seated.receives
    }

    /// The messages whose receipts were sent in it and not answered yet.
    pub fn unanswered(&self) -> &[MessageId]
        ensures { result.now ≡ self.now.unanswered }
    {
        self.seated.unanswered.as_slice()
    }

    // The session with these unanswered.
    fn with_unanswered(
        &self,
        alloc: Global,
        unanswered: Vec<MessageId>,
    ) -> Result<ReceiptSession, AllocError>
        ensures { IfOk result (λ s. s ≡ record self.now { unanswered = unanswered.items }) }
    {
        let account = Arc::try_clone(&self.seated.account)?;
        let seated = Arc::new(
            alloc,
            SessionEntry {
                number: self.seated.number,
                account,
                receives: self.seated.receives,
                unanswered: Listed::from_vec(unanswered),
            },
        )?;
        Ok(ReceiptSession { seated })
    }

    /// The session once the message's receipt was sent in it.
    pub fn with(&self, alloc: Global, id: MessageId) -> Result<ReceiptSession, AllocError>
        ensures { IfOk result (λ s. s ≡ record self.now { unanswered = self.now.unanswered ++ id ∷ [] }) }
    {
        let mut unanswered = Vec::from_slice(alloc, self.unanswered())?;
        unanswered.push(id)?;
        self.with_unanswered(alloc, unanswered)
    }

    /// The session once the message's receipt was answered.
    pub fn without(&self, alloc: Global, id: MessageId) -> Result<ReceiptSession, AllocError>
        ensures { IfOk result (λ s. s ≡ record self.now { unanswered = without_id id self.now.unanswered }) }
    {
        let unanswered = others(alloc, self.unanswered(), id)?;
        self.with_unanswered(alloc, unanswered)
    }

    /// Whether the message's receipt was sent in it and not answered yet.
    pub fn awaits(&self, id: MessageId) -> bool
        ensures { result ≡ is_among id self.now.unanswered }
    {
        holds(self.unanswered(), id)
    }
}

// All ids but that.
fn others(alloc: Global, ids: &[MessageId], id: MessageId) -> Result<Vec<MessageId>, AllocError>
    ensures { IfOk result (λ v. v.items ≡ without_id id ids.now) }
{
    let mut left = Vec::new(alloc);
    for other in ids {
        if other.number() != id.number() {
            left.push(*other)?;
        }
    }
    Ok(left)
}

// Whether the id is one of these.
fn holds(ids: &[MessageId], id: MessageId) -> bool
    ensures { result ≡ is_among id ids.now }
{
    for other in ids {
        if other.number() == id.number() {
            return true;
        }
    }
    false
}
