//! What waits for one handset, what of it is offered next, and when a failed part is tried again.
//!
//! `WaitingParts` is what a centre keeps of one handset: parts and status reports in the order of messages and numbers,
//! which copies share. What is next is the first of all that is due: the greatest priority, then the earliest moment,
//! then the lower message and number (`sms_centre_rows/specs/waiting/Waiting.antt`). A handset has at most 256 of them,
//! so `next` walks through all.
//!
//! - `laws`: laws of what is next
//! - `retry`: when a failed part is tried again
//! - `waiting`: what waits for one handset, as the queues of the centre keep it
#![tactic(auto)]

pub mod laws;
mod retry;
pub mod waiting;

pub use retry::retry_after;
