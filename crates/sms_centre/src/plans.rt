//! What an event of the centre leads to, ready made, and putting it in.
//!
//! `settle` takes the centre within an event and gives what the event leads to. That is the changes to commit, and the
//! frames, the answer and the receipts that leave after the commit. It has the memory for all that the centre keeps. It
//! is the outcome of the definition (`sms_centre_spec`). `EventOutcome::adopt` puts it in without taking memory. What
//! is in memory is then that of the centre after the event. Both cost what the event touched.

mod adopting;
mod event_outcome;
mod settling;

pub use event_outcome::{EventOutcome, NextState, Outputs};
pub use settling::settle;
