//! The receipt and the status report that an originator gets at the end of a message.
//!
//! An application gets a deliver_sm with a receipt of 102 octets (SMPP v3.4 4.6.1, appendix B). A handset gets a
//! STATUS-REPORT (3GPP TS 23.040 9.2.2.3). Both are made of a `Final` alone: what was submitted and how it ended. Each
//! is its definition in `specs/`. A receipt is a message that can be written, and the octets of a STATUS-REPORT are the
//! one written list of the report.
//!
//! - `entity`: the addresses of a receipt
//! - `final_message`: a message that ended
//! - `laws`: laws of receipts
//! - `receipt`: receipts
//! - `status`: status reports
//! - `text`: the text of a receipt
#![tactic(auto)]

mod entity;
mod final_message;
pub mod laws;
mod receipt;
mod status;
mod text;

pub use final_message::Final;
pub use receipt::{Receipt, message_state, receipt_of};
pub use status::{status_report_octets, status_report_of};
pub use text::receipt_text;
