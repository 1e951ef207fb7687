//! What an event of the centre does by itself: a frame of a handset, a request of an application, a tick.
//!
//! Whatever draft of the definition the centre represents before an event, it represents the definition's after it.
//! Receipts and offers follow every event, and are in `offering`. The definition walks over all messages,
//! reports and handsets at a tick; the code walks over those that are found.
//!
//! A submission is judged before anything changes: whether a number and references are free for all of its parts, too. So no stage
//! takes back what it did. What is known as the event begins answers three questions (`specs/Knowing.antt`). They are whether a
//! SUBMIT is a duplicate, whether a reference is taken, and which number is next. Nothing earlier in the event changes a message or a
//! part.
//!
//! - `accepting`: a submission becomes a message
//! - `accounts`: the accounts of applications
//! - `aging`: messages that expire, and status reports that are dropped
//! - `asking`: what a submission is compared with, and the number of its message
//! - `binding`: sessions are bound (SMPP v3.4 4.1)
//! - `finding`: the message that an application asks for
//! - `frames`: a frame of a handset (3GPP TS 24.011 6 and 8.2)
//! - `links`: transfers that end by the loss of the link, or by a timer
//! - `offering`: what is offered to handsets and applications after an event
//! - `orders`: what an operator orders of a message
//! - `questions`: query_sm and cancel_sm (SMPP v3.4 4.8, 4.9)
//! - `sources`: the source and the destination that an application names
//! - `submitting`: submit_sm (SMPP v3.4 4.4)
//! - `ticks`: a tick
//! - `unfit`: a query_sm or a cancel_sm that is refused
//! - `units`: a unit of a handset that opens a transaction
//! - `walks`: walks over the handsets that a tick concerns
#![tactic(auto)]

mod accepting;
mod accounts;
mod aging;
mod asking;
mod binding;
mod finding;
mod frames;
mod links;
pub mod offering;
mod orders;
mod questions;
mod sources;
mod submitting;
mod ticks;
mod unfit;
mod units;
mod walks;

pub use accounts::account_at;
pub use binding::bind;
pub use frames::frame_taken;
pub use links::lower;
pub use orders::order;
pub use questions::{cancel, query};
pub use submitting::submit;
pub use ticks::tick;
pub use unfit::{refusal_of_cancel, refusal_of_query};
