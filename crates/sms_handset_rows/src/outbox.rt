//! The outbox of a handset: what it sends (3GPP TS 23.040 9.2.2.2, 3GPP TS 24.011 6.3.3).
//!
//! An entry is one SUBMIT that the owner wrote. It takes a TP-MR and a reference that no unfinished entry and no
//! RP-SMMA holds. A `Notice` is an RP-SMMA that has not ended. A transfer's end gives a `TransferEnd`, which settles the
//! entry. Of the entries that are due the oldest is sent first. The tests of `sound_outbox` answer whether a handset
//! can have left such rows; they take no memory.

mod answers;
mod notice;
mod offers;
mod out_entry;
mod out_view;
mod references;
mod reports;
mod settling;
mod sound_outbox;
mod submit_tpdu;
mod submits;

pub use answers::{TransferEnd, verdict_of};
pub use notice::Notice;
pub use offers::{data_unit, first_due, first_fired, sent_once_more, smma};
pub use out_entry::{EntryState, OutEntry};
pub use out_view::{OutView, copies_of, outbox_after};
pub use references::{following, held_message_references, held_references, next_free};
pub use reports::reported;
pub use settling::{lost, settled};
pub use sound_outbox::{are_out_entries, message_references_differ, references_differ};
pub use submit_tpdu::SubmitTpdu;
pub use submits::submit_of_part;
