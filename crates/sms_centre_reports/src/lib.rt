//! What a centre keeps in memory of receipts, status reports and sessions.
//!
//! The memory of reports and sessions answers as the rows do. Whatever reports and sessions it represents before a
//! call, it represents the definition's after it. Open reports are found in a logarithm; memory has nothing of closed
//! ones but a line in the log. Copies share what they do not change, and adopting takes no memory.
//!
//! - `awaited`: laws: what sessions wait for, over all events
//! - `open_reports`: the receipts and status reports that are open
//! - `report_log`: all reports that were made
//! - `reported`: whether the end of a message was reported
//! - `sessions`: the sessions of applications, and the receipts that were sent in them
#![tactic(auto)]

pub mod awaited;
pub mod open_reports;
pub mod report_log;
pub mod reported;
pub mod sessions;
