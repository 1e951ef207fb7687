//! The outbox: what the owner wrote.
ghost use Rattle.std.specs.Prelude.{◌≡◌, IfOk};
ghost use Rattle.sms_handset_rows.specs.outbox.Keys.{out_key};
ghost use Rattle.sms_handset_rows.specs.outbox.References.{is_unfinished as is_unfinished_state};

use crate::outbox::submit_tpdu::SubmitTpdu;
use sms_base::{Address, Moment};
use sms_rows::table::{Key, Row};
use std::alloc::{AllocError, Global};

/// How far an entry of the outbox is.
#[derive(Clone, Copy, PartialEq, Eq)]
pub enum EntryState {
    /// The SUBMIT waits to be sent.
    Queued,
    /// The SUBMIT is under way.
    Sending,
    /// The centre acknowledged it.
    Sent,
    /// The centre refused it.
    Failed,
    /// Whether the centre took it is not known.
    Unsure,
}

impl EntryState {
    /// Whether it is Queued or Sending.
    pub fn is_unfinished(self) -> bool
        ensures { result ≡ is_unfinished_state self }
    {
        match self {
            EntryState::Queued | EntryState::Sending => true,
            EntryState::Sent | EntryState::Failed | EntryState::Unsure => false,
        }
    }
}

/// An entry of the outbox: one SUBMIT.
#[derive(Drop)]
pub struct OutEntry {
    /// The entry's number, 1 to 4294967294. It is given once and to no entry of the inbox.
    pub number: u32,
    /// TP-MR.
    pub message_reference: u8,
    /// The reference of its RP-DATA, kept over all tries.
    pub reference: u8,
    pub destination: Address,
    /// The SUBMIT as it is sent first, with TP-RD 0.
    pub tpdu: SubmitTpdu,
    /// Whether it is a part of a text that was split.
    pub is_long: bool,
    pub state: EntryState,
    /// How often it was sent.
    pub tries: u8,
    /// Whether it is sent with TP-RD 1 from now on.
    pub rejects_duplicates: bool,
    /// When it is sent again; at once where none is given.
    pub due: Option<Moment>,
    /// TP-ST of the last status report for it.
    pub status: Option<u8>,
}

impl OutEntry {
    /// A copy of the entry.
    pub fn copy(&self, alloc: Global) -> Result<OutEntry, AllocError>
        ensures { IfOk result (λ copy. copy ≡ self.now) }
    {
        Ok(OutEntry {
            number: self.number,
            message_reference: self.message_reference,
            reference: self.reference,
            destination: self.destination,
            tpdu: self.tpdu.copy(alloc)?,
            is_long: self.is_long,
            state: self.state,
            tries: self.tries,
            rejects_duplicates: self.rejects_duplicates,
            due: self.due,
            status: self.status,
        })
    }
}

impl Row for OutEntry {
    ghost key = { out_key };

    fn key(&self) -> Key {
        Key::of(u64::from(self.number))
    }
}
