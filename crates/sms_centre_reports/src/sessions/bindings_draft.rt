//! The sessions in the middle of an event.
ghost use Rattle.std.specs.Prelude.{◌≡◌, [], OnOk, IfOk, option_copied, option_map};
ghost use Rattle.sms_centre_reports.specs.open_reports.Serving.{serving};
ghost use Rattle.sms_centre_rows.specs.reports.Receipts.{is_unanswered, put_session, remove_session, session_key};
ghost use Rattle.sms_rows.specs.table.Table.{row_at};

use crate::sessions::serving::{is_unanswered, serving};
use crate::sessions::session::ReceiptSession;
use sms_base::MessageId;
use sms_centre_rows::reports::Delivery;
use sms_rows::table::{Key, Table};
use std::alloc::{AllocError, Global};
use std::marker::Model;

/// The sessions in the middle of an event, and the receipts that it sent in them.
#[derive(Drop)]
pub struct BindingsDraft {
    pub(crate) alloc: Global,
    pub(crate) sessions: Table<ReceiptSession>,
    pub(crate) deliveries: Vec<Delivery>,
}

impl Model for BindingsDraft {
    ghost use Rattle.sms_centre_rows.specs.reports.Receipts.{Bindings};

    ghost Value = { Bindings };

    ghost view = { λ d. record { sessions = d.sessions.rows; deliveries = d.deliveries.items } };
}

/// What an event leaves of the sessions, and the receipts that it sent in them, in order.
#[derive(Drop)]
pub struct BindingsPlan {
    pub sessions: Table<ReceiptSession>,
    pub deliveries: Vec<Delivery>,
}

impl BindingsDraft {
    /// The sessions as an event begins.
    pub fn of(alloc: Global, sessions: &Table<ReceiptSession>) -> Result<BindingsDraft, AllocError>
        ensures { IfOk result (λ d. d ≡ record { sessions = sessions.now.rows; deliveries = [] }) }
    {
        let seats = shared(alloc, sessions.as_slice())?;
        Ok(BindingsDraft {
            alloc,
            sessions: Table::from_vec(seats),
            deliveries: Vec::new(alloc),
        })
    }

    /// The session of that number, if it is bound.
    pub fn session(&self, number: u32) -> Option<&ReceiptSession>
        ensures { option_copied result ≡ row_at session_key number self.now.sessions }
    {
        self.sessions.find(Key::of(u64::from(number)))
    }

    /// The number of the session that receives for the account and has the fewest unanswered.
    pub fn serving(&self, account: &[u8]) -> Option<u32>
        ensures { result ≡ option_map (λ s. s.number) (serving account.now self.now.sessions) }
    {
        serving(self.sessions.as_slice(), account)
    }

    /// Whether the message's receipt was sent in a session and not answered yet.
    pub fn is_unanswered(&self, id: MessageId) -> bool
        ensures { result ≡ is_unanswered id self.now.sessions }
    {
        is_unanswered(self.sessions.as_slice(), id)
    }

    /// The session is bound, or as it is now.
    pub fn put(&mut self, seat: ReceiptSession) -> Result<(), AllocError>
        ensures { OnOk result (self.new ≡ put_session seat self.old) }
    {
        self.sessions.put(seat)
    }

    /// The session is bound no longer.
    pub fn remove(&mut self, number: u32)
        ensures { self.new ≡ remove_session number self.old }
    {
        self.sessions.remove(Key::of(u64::from(number)));
    }

    /// What the event leaves. Adopting it is to put its sessions in the place of those that the event began with.
    pub fn settle(self) -> BindingsPlan
        ensures sessions { result.sessions.rows ≡ self.sessions }
        ensures deliveries { result.deliveries.items ≡ self.deliveries }
    {
        BindingsPlan {
            sessions: self.sessions,
            deliveries: self.deliveries,
        }
    }
}

// The same sessions, shared.
fn shared(alloc: Global, seats: &[ReceiptSession]) -> Result<Vec<ReceiptSession>, AllocError>
    ensures { IfOk result (λ copies. copies.items ≡ seats.now) }
{
    let mut copies = Vec::with_capacity(alloc, seats.len())?;
    for seat in seats {
        copies.push(seat.share()?)?;
    }
    Ok(copies)
}
