//! Receipts and status reports: who learns how a message ended.
//!
//! An application gets a receipt. A handset gets a status report (3GPP TS 23.040 9.2.2.3), which keeps its TPDU as made
//! when its reference was given. A message has at most one report, which is put once; after that only how far it is
//! changes. `specs/reports` says what waits for a handset, status reports included, and which receipts a session gets.

mod delivery;
pub mod laws;
mod report;

pub use delivery::Delivery;
pub use report::{ReportKind, ReportRow};
