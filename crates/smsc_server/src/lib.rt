//! A run of the server.
//!
//! `serve` starts a centre with the rows of a keep and serves the connections of two listeners. What it runs is one
//! history of the centre's definition. Its gate, clock, keep and listeners are whatever the caller gives. The machine of a
//! centre (`smsc_service`) is passed on.
//!
//! - `answer_laws`: what an application reads in answer to what it submits
//! - `connection_laws`: what a connection takes of the centre
//! - `links_shown`: the links that are up, as a status page shows them
//! - `run_laws`: what a run of the server keeps, whatever its connections ask
//! - `serving`: a run of the server
#![tactic(auto)]

pub mod answer_laws;
pub mod connection_laws;
mod links_shown;
pub mod run_laws;
mod serving;

pub use links_shown::link_lines;
pub use serving::{
    AccountBook, Allowance, Allowances, Clocks, Given, Loopback, ObservedKeep, Orders, Ports, Rate,
    RunClock, ServeFault, loopback_pair, milliseconds, no_account_passes_its_rate, serve,
    serve_machine,
};
pub use smsc_arrivals::{Arrival, Door, Doors, Duplicate, PeerKind};
pub use smsc_service::CentreMachine;
