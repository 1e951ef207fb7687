//! The sessions of applications within an event, and the receipts that were sent in them (SMPP v3.4 2.9 and 4.6).
//!
//! Copies share a session's state: an event copies the table of sessions and makes anew those that it changes.
//! Contracts see both as the definition's, so each move is an equation. The definition walks over all reports; `send`
//! makes the few steps that `sms_centre_reports::open_reports` finds, and they are shown to be that walk. An answer,
//! the end of a session and its binding change the reports too. They ask that what the sessions wait for is open
//! (`specs/sessions/Awaited.antt`).

mod answering;
mod bindings_draft;
mod sending;
mod serving;
mod session;

pub use bindings_draft::{BindingsDraft, BindingsPlan};
pub use session::ReceiptSession;
