//! A hub: a keeper with up to 32 seats, and runs of it.
//!
//! The keeper runs terms, one after the other, until all seats have closed. After a group that the store refused the machine is
//! opened again. Where that fails, each job is refused from then on. What was run is one history of the machine, of which a
//! recorder is told. Nobody else keeps it.
//!
//! A run has a list of jobs for each session, each put by a thread of its own. `many_sessions` runs up to 32 lists,
//! `two_sessions` two. Where it gives an answer, each list was run whole and in order, and nothing else, in one history of
//! the machine. The answers of each session are its outs there. `sms_seats` has the queues and the seats,
//! `sms_keeper` the keeper, and their calls are passed on here.
//!
//! - `hub`: how a hub is made
//! - `hub_fault`: why a hub or a run of one gave no answer
//! - `run`: runs of given lists of jobs
//! - `session`: a session of a given list of jobs
//! - `terms`: terms, one after the other
#![tactic(auto)]

mod hub;
mod hub_fault;
mod run;
mod session;
mod terms;

pub use hub::Hub;
pub use hub_fault::HubFault;
pub use run::{many_sessions, two_sessions};
pub use sms_keeper::{
    Broken, Clock, End, Errand, Fate, Gate, Item, Keeper, Machine, NoRecord, Out, Outs, Recorder,
    Seat, Step, Stimulus, Unsettled,
};
pub use terms::run_terms;
