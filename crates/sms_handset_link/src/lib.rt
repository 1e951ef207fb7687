//! A run of a handset over a link to the centre.
//!
//! `run_handset` sends the number of its handset, with its secret if it has one, does what the owner asks, and then takes frames and lets time pass.
//! It ends after enough frames, or when the link closes. It does so over any keep, reader, writer and clock. A frame is
//! sent only once the changes that it follows from are committed. A run of the server shares no code with it, so it is a crate of its own.
//!
//! - `acts`: what the owner asks, done and answered
//! - `clock`: the clock of a run
//! - `link`: frames over the link
//! - `run`: the run
//! - `run_error`: why a run ended before its work was done
#![tactic(auto)]

mod acts;
mod clock;
mod link;
mod run;
mod run_error;

pub use clock::Clock;
pub use run::{RunEnd, run_handset};
pub use run_error::RunError;
