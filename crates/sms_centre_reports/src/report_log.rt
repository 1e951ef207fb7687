//! The log of reports: which receipts and status reports were made, in the order made.
//!
//! `ReportLog` keeps of every report its place and its message, 16 octets each, so that all can be listed. They lie in a
//! ring: a report that goes moves those before it or those behind it, whichever are fewer, and several at once move each
//! other one once at most. It keeps the place of each under its message, in a map: so the report of a message is found at
//! a cost that does not grow. How each message ended is stored with the messages. The log is made from the rows of a
//! store, and an event's new reports are put in without taking memory. `specs/report_log/Reporting.antt` says what a
//! centre answers about its messages and their ends.

mod log;
mod places;

pub use log::{LoggedReport, ReportLog, ReportLogReserve};
