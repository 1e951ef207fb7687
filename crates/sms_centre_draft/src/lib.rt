//! The centre within an event.
//!
//! `CentreDraft` has what the event finds and changes: messages, queues, reports and sessions, the moment, and the answer
//! so far. Each call is a stage of the centre's definition (`sms_centre_spec`). Whatever draft of the definition the
//! centre represents before it (`specs/Working.antt`), it represents the stage of that draft after it. A call that
//! finds no memory leaves no stated state: the event is given up whole.
//!
//! - `aging`: messages that expire, and status reports that are dropped
//! - `answers`: answers to units of handsets (3GPP TS 24.011 6)
//! - `asking`: questions over many handsets or reports, and receipts that are sent
//! - `ends`: how a message ends, and its report
//! - `forgetting`: messages that leave the centre
//! - `laws`: laws: a submission ends as the rows before it judge it
//! - `links`: links that are lost, and timers that fire
//! - `moves`: one change of what the centre keeps, each
//! - `orders`: an operator's retry: all of a message that waits becomes due
//! - `receiving`: everything that waits for a handset is due now (3GPP TS 24.011 7.3.2)
//! - `rows`: rows that change
//! - `sessions`: what sessions do with receipts
//! - `shares`: how many of a handset's references are free, and how many an account holds
//! - `queues`: moves of the queues by the numbers of handsets
//! - `submitting`: a submission becomes a message with all its parts, or nothing
//! - `transfers`: how a transfer to a handset ends (3GPP TS 24.011 8.2.5.4)
//! - `walks`: laws: walks over everything are walks over what is found
//! - `centre_draft`: the draft itself
#![tactic(auto)]

mod aging;
mod answers;
mod asking;
mod centre_draft;
mod ends;
mod forgetting;
pub mod laws;
mod links;
mod moves;
mod orders;
mod queues;
mod receiving;
mod rows;
mod sessions;
mod shares;
mod submitting;
mod transfers;
pub mod walks;

pub use answers::Transfer;
pub use centre_draft::CentreDraft;
pub use transfers::{finished, tried};
