//! One end of a link, with what its transactions carry.
//!
//! `Link` is one end of a link (`Links` of `sms_control`) that keeps for whom its transaction and its answer were made.
//! So each frame that it sends says what it carries, also where it is sent again. The layer above gets a transaction's
//! end with the transfer that ended, as `Upward`. Both cores use it; they differ in their `Side`, which says what units
//! arrive.
//!
//! Over any calls (`laws`) each frame out is new, a copy of an earlier one with what it carried, or CP-ACK or CP-ERROR.
//! A transfer begins only where none is under way, and ends once. A call that finds no memory leaves the link in no
//! stated state: plan on a copy, and install it when all is done.
//!
//! - `ending`: what a link passes up
//! - `framing`: the frames of a link in the octets of a connection
//! - `laws`: laws of one end of a link
//! - `link`: one end of a link
//! - `link_runs`: one end of a link over any list of calls
//! - `outgoing`: frames to send, with what they carry
//! - `timers`: the timers of a link and of the layer above it (3GPP TS 24.011 10)
#![tactic(auto)]

mod ending;
pub mod framing;
pub mod laws;
mod link;
pub mod link_runs;
mod outgoing;
mod timers;

pub use ending::{Ending, Side, Upward};
pub use link::{Link, LinkOut};
pub use outgoing::Outgoing;
pub use timers::{MOST_REPEATS, TC1_STAR, TR1M, TR1N, TRAM};
