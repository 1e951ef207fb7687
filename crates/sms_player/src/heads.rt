//! Which heads of scripts can be played, and the sides that they name.
//!
//! `judge` answers exactly which heads can be played, and the moment at which such a script begins. `centre_setup` is
//! the setup of its centre. `with_parties` makes its handsets and lends them, so that no crate above proves how they
//! are dropped. All of it is as the definition has it (`sms_play`). Want of memory is reported only where a growth was
//! refused. This module passes on what crates above name of a handset in play.

mod centre;
mod handsets;
mod judging;
pub mod laws;

pub use centre::centre_setup;
pub use handsets::{numbers_of, with_parties};
pub use judging::judge;
pub use sms_player_handset::{HandsetOutcome, PlayedHandset, joined_lines, outbox_lines};
