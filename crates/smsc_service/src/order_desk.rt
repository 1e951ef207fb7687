//! Where an order of the owner waits for the keeper, and its outcome for whoever ordered.
ghost use Rattle.std.specs.Prelude.{◌≡◌, IfSome};
ghost use Rattle.smsc_service.specs.Sparing.{IsOrder};
ghost use Rattle.smsc_service.specs.Outcomes.{number_of as number_of_outcome, outcome_at as outcome_numbered, told_by};

use smpp_pdu::CommandStatus;
use sms_base::{FinalState, MessageId};
use sms_centre::{CentreAnswer, Order};
use sms_centre_rows::conditions::is_address;
use sms_intake::CentreAccount;
use sms_keeper::Errand;
use std::sync::Mutex;
use std::sync::atomic::{AtomicU8, AtomicU64, Ordering};

// How far the order is. Nobody has ordered anything.
const FREE: u8 = 0;

const WAITING: u8 = 1;

// The keeper has taken it.
const TAKEN: u8 = 2;

const TOLD: u8 = 3;

// What is ordered.
const RETRY: u8 = 0;

const DELETE: u8 = 1;

const ENROL: u8 = 2;

/// What came of an order.
#[derive(Clone, Copy, PartialEq, Eq)]
pub enum OrderOutcome {
    /// What waits of the message is due now.
    Waits,
    /// The message had ended so.
    Ended(FinalState),
    /// The message is deleted.
    Deleted,
    /// A message that has ended is not deleted.
    HasEnded,
    /// There is no message of that number.
    Unknown,
    /// The account is the last of the centre's.
    Enrolled,
    /// Nothing was done: the centre had no memory, or its store refused.
    Failed,
}

/// The outcome that an answer of the centre tells.
pub(crate) fn outcome_of(answer: Option<CentreAnswer>) -> OrderOutcome
    ensures { result ≡ told_by answer }
{
    match answer {
        Some(CentreAnswer::Queried { state: None, .. }) => OrderOutcome::Waits,
        Some(
            CentreAnswer::Queried {
                state: Some(state),
                ..
            },
        ) => OrderOutcome::Ended(state),
        Some(CentreAnswer::Cancelled) => OrderOutcome::Deleted,
        Some(CentreAnswer::Refused(CommandStatus::ESME_RCANCELFAIL)) => OrderOutcome::HasEnded,
        Some(CentreAnswer::Refused(CommandStatus::ESME_RINVMSGID)) => OrderOutcome::Unknown,
        _ => OrderOutcome::Failed,
    }
}

fn number_of(outcome: OrderOutcome) -> u8
    ensures { result ≡ number_of_outcome outcome }
{
    match outcome {
        OrderOutcome::Failed => 0,
        OrderOutcome::Waits => 1,
        OrderOutcome::Deleted => 2,
        OrderOutcome::HasEnded => 3,
        OrderOutcome::Unknown => 4,
        OrderOutcome::Ended(FinalState::Delivered) => 5,
        OrderOutcome::Ended(FinalState::Expired) => 6,
        OrderOutcome::Ended(FinalState::Deleted) => 7,
        OrderOutcome::Ended(FinalState::Undeliverable) => 8,
        OrderOutcome::Enrolled => 9,
    }
}

fn outcome_at(number: u8) -> OrderOutcome
    ensures { result ≡ outcome_numbered number }
{
    match number {
        1 => OrderOutcome::Waits,
        2 => OrderOutcome::Deleted,
        3 => OrderOutcome::HasEnded,
        4 => OrderOutcome::Unknown,
        5 => OrderOutcome::Ended(FinalState::Delivered),
        6 => OrderOutcome::Ended(FinalState::Expired),
        7 => OrderOutcome::Ended(FinalState::Deleted),
        8 => OrderOutcome::Ended(FinalState::Undeliverable),
        9 => OrderOutcome::Enrolled,
        _ => OrderOutcome::Failed,
    }
}

/// Where one order at a time waits for the keeper, and its outcome for whoever ordered. One thread puts orders here, and the keeper takes them.
/// Neither waits for the other.
#[derive(Drop)]
pub struct OrderDesk {
    progress: AtomicU8,
    kind: AtomicU8,
    // Of which message.
    id: AtomicU64,
    // The account that is to come.
    account: Mutex<Option<CentreAccount>>,
    outcome: AtomicU8,
}

impl OrderDesk {
    /// Nothing is ordered.
    pub fn new() -> OrderDesk {
        OrderDesk {
            progress: AtomicU8::new(FREE),
            kind: AtomicU8::new(RETRY),
            id: AtomicU64::new(0),
            account: Mutex::new(None),
            outcome: AtomicU8::new(0),
        }
    }

    fn is_free(&self) -> bool {
        self.progress.load(Ordering::SeqCst) == FREE
    }

    fn begin(&self, kind: u8) {
        self.kind.store(kind, Ordering::SeqCst);
        self.progress.store(WAITING, Ordering::SeqCst);
    }

    /// Puts an order. False where another one is not done yet.
    pub fn put(&self, order: Order, id: MessageId) -> bool {
        if !self.is_free() {
            return false;
        }
        self.id.store(id.number(), Ordering::SeqCst);
        self.begin(match order {
            Order::Retry => RETRY,
            Order::Delete => DELETE,
        });
        true
    }

    /// Orders that the account comes. False where another order is not done yet, or where no unit can carry the account's address.
    pub fn put_account(&self, account: CentreAccount) -> bool {
        if !self.is_free() || !is_address(&account.address) {
            return false;
        }
        let is_laid = self.lay(account);
        if is_laid {
            self.begin(ENROL);
        }
        is_laid
    }

    // Puts the account where the keeper takes it from. False where somebody else is there now.
    fn lay(&self, account: CentreAccount) -> bool {
        let Some(mut place) = self.account.try_lock() else {
            return false;
        };
        *place = Some(account);
        true
    }

    /// What came of the order, once that is committed. The next one may be put then.
    pub fn outcome(&self) -> Option<OrderOutcome> {
        if self.progress.load(Ordering::SeqCst) != TOLD {
            return None;
        }
        let outcome = outcome_at(self.outcome.load(Ordering::SeqCst));
        self.progress.store(FREE, Ordering::SeqCst);
        Some(outcome)
    }

    fn message(&self) -> Option<MessageId> {
        MessageId::new(self.id.load(Ordering::SeqCst))
    }

    // Takes the account from where it waits.
    fn comer(&self) -> Option<CentreAccount> {
        let mut place = self.account.try_lock()?;
        place.take()
    }

    /// The order that waits, if one does. The keeper asks it at once.
    pub(crate) fn waiting(&self) -> Option<Errand>
        ensures { IfSome result IsOrder }
    {
        if self.progress.load(Ordering::SeqCst) != WAITING {
            return None;
        }
        match self.kind.load(Ordering::SeqCst) {
            ENROL => Some(Errand::Enrol(self.comer()?)),
            DELETE => Some(Errand::Delete(self.message()?)),
            _ => Some(Errand::Retry(self.message()?)),
        }
    }

    /// The keeper has asked it of the centre.
    pub(crate) fn take(&self) {
        self.progress.store(TAKEN, Ordering::SeqCst);
    }

    /// Tells what came of it.
    pub(crate) fn tell(&self, outcome: OrderOutcome) {
        self.outcome.store(number_of(outcome), Ordering::SeqCst);
        self.progress.store(TOLD, Ordering::SeqCst);
    }
}
