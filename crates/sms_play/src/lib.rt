//! What a script leads to.
//!
//! Handsets and a centre have stores that keep what they are given. The network hands over only what the script says.
//! `specs/` has the definition. An event of the script is an event of one of the two cores (`Meeting`). What the core
//! makes of it is committed, and its frames get the next numbers. The report is read off the rows and the changes that
//! led to them. Beside it the definition decides whether frames were timely and concatenation references fresh.
//!
//! - `answers`: law: no request of a script is answered ESME_RSYSERR
//! - `growth`: laws: what an event keeps of a script's course
//! - `judging`: whether the premises hold of a script in play
//! - `reporting`: what a report lists of a script in play
//! - `staging`: frames by number
#![tactic(auto)]

pub mod answers;
pub mod growth;
pub mod judging;
pub mod reporting;
pub mod staging;
