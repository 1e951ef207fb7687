//! Tests of the service, its endpoints and the programs' words, over their public calls.
//!
//! - `handset_runs`: a run of a handset over octets, and over links that fail
//! - `loopback`: a run of the server over sockets of this machine
//! - `programs`: frames in a stream, owners' lines, words, captures, ladders
//! - `seats`: sessions and links at seats, without wire or hub
//! - `server`: relay runs over readers and writers, and their words
//! - `service`: the centre as the machine of a hub, turn by turn, over a store that fails on demand
//! - `serving`: endpoints on wires that fail
//! - `status`: the status page
#![tactic(auto)]

#[cfg(test)]
mod clock_and_gate;
pub mod handset_runs;
pub mod loopback;
pub mod programs;
#[cfg(test)]
mod rows;
pub mod seats;
pub mod server;
pub mod service;
pub mod serving;
pub mod status;
