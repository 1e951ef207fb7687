//! The definition of the centre core (3GPP TS 23.040 3.2 and 10, 3GPP TS 24.011 6, SMPP v3.4 4).
//!
//! `specs/` defines what the centre does with requests of applications, frames of handsets and time. An event is a
//! composition of small stages over a draft in three parts: rows, links to handsets, and sessions of applications.
//! `laws` says what every event keeps. A sound centre stays sound, no final state is taken back, and what leaves is for
//! what is in the rows. Here is no code but the types that the definition names, tests of a setup, of moments and of
//! originators, what an event is, and the verdict of an end.
//! The crates from `sms_centre_messages` to `sms_centre` do what is defined here.
//!
//! - `answer`: what an application is answered
//! - `bodies`: what a centre wants of the store of its rows
//! - `conditions`: tests of a setup, of moments and of originators, and laws of all tests of rows
//! - `event`: the events of a centre
//! - `finals`: what is reported of a message that ended
//! - `forgetting`: laws of messages that leave the rows once they ended and were reported
//! - `jobs`: the jobs that seats put, and the replies that they get
//! - `laws`: laws of the centre's events
//! - `numbered_event`: what names its handset by a number is an event
//! - `numbers`: where the numbers of a run's messages begin
//! - `octets`: which octets rows have under a key
//! - `order`: what an operator orders
//! - `plan_error`: why nothing is planned
//! - `rows`: what a centre stores, and what an event changes of it
//! - `setup`: what a centre is given when it starts
//! - `verdict`: the meaning of a transfer's end
#![tactic(auto)]

mod answer;
pub mod bodies;
pub mod conditions;
mod event;
mod finals;
pub mod forgetting;
pub mod jobs;
pub mod laws;
mod numbered_event;
pub mod numbers;
pub mod octets;
mod order;
mod plan_error;
mod rows;
mod setup;
mod verdict;

pub use answer::CentreAnswer;
pub use event::CentreEvent;
pub use finals::final_of;
pub use numbered_event::is_event;
pub use order::Order;
pub use plan_error::PlanError;
pub use rows::{Changes, Rows};
pub use setup::Setup;
pub use verdict::{Verdict, verdict_of};
