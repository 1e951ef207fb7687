//! The receipts and status reports that are open.
//!
//! A report that was answered or dropped takes no memory. The others are found by their messages. Receipts are also
//! found by their account, in the order in which they were made. Status reports are found by the moment at which they
//! are dropped. Each takes a logarithm. Copies share all of it: an event changes a copy at the cost of what it touches,
//! and adopting it takes no memory. `specs/open_reports` says what memory has of the rows. Each call says that it follows
//! the definition's move of them. Within an event the reports that it made are noted, since their octets aren't in the
//! store yet.

mod accounts;
mod draft;
mod entry;
pub mod laws;
mod made;
mod receipt_move;
mod receipts;
mod recover;
mod reports;

pub use draft::{OpenReportsDraft, OpenReportsPlan};
pub use entry::{ReceiptEntry, ReportEntry, StatusEntry};
pub use reports::OpenReports;
