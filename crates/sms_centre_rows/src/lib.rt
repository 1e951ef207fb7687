//! The rows of a service centre, and their meaning.
//!
//! A centre stores messages, their parts, the references that it gave at each handset, reports, priorities, and bars.
//! `specs/` says what these rows mean: what a message still has to bring to its handset, and which references are free.
//! It also says what waits where, and when rows are sound. Other crates keep these rows in memory, in stores, and
//! change them in events; all do so in the words of this crate.
//!
//! - `conditions`: whether rows are sound, by a test of each condition
//! - `messages`: the messages that were accepted, and their parts
//! - `report_lines`: what a report has of these rows
//! - `reports`: receipts and status reports
//! - `waiting`: what waits for one handset, and the link to it
#![tactic(auto)]

pub mod conditions;
pub mod messages;
pub mod report_lines;
pub mod reports;
pub mod waiting;
