//! A handset of a script in play, over the handset's code.
//!
//! `PlayedHandset` is a handset on its rows in memory, with all that it accepted and joined since the script began.
//! `meet` leads from the handset of the script's definition (`sms_play`) to the one after the event. It gives the
//! references that the event gave and the frames that it sends. `restart` leads to the handset that starts again on its
//! rows. An event is left undone only where a growth was refused; the play ends then.
//!
//! - `laws`: laws of a handset's events, over their definitions alone
//! - `lines`: what handsets in play report in the end
//! - `notes`: what is noted of an event
//! - `played`: a handset in play
//! - `stored_handset`: a handset, and its rows in memory
#![tactic(auto)]

pub mod laws;
mod lines;
mod notes;
mod played;
mod stored_handset;

pub use lines::{joined_lines, outbox_lines};
pub use played::{HandsetOutcome, PlayedHandset};
