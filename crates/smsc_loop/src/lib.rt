//! The loop between a connection and a seat of the hub.
//!
//! `serve` runs an `Endpoint` between a `Wire` and an `OpenSeat`, whatever the endpoint and the wire are. Its contract says which calls
//! of the endpoint it made, in order, and that octets, replies and jobs passed by these calls alone. A wire that takes no octets, or
//! whose other side does not say who it is, is given up after a while. The seat takes its answers meanwhile, so that the keeper never
//! waits for it. At the end each request that the seat put has its answer, so that the next connection at the seat gets none of them.
//!
//! - `endpoint`: who may sit at a seat
//! - `flowing`: between a wire and its endpoint: octets
//! - `judging`: what the waiting and the orders lead to
//! - `leaving`: an endpoint leaves its seat
//! - `note`: what an endpoint did, and what happened to it
//! - `observing`: what an observer gets to know of an endpoint
//! - `open_seat`: a seat that has not closed
//! - `putting`: between an endpoint and its seat: replies and jobs
//! - `serving`: an endpoint between its wire and its seat
//! - `surroundings`: what is round a seat
//! - `turn_end`: whether an endpoint stays after a turn
//! - `wire`: where octets are received and sent
#![tactic(auto)]

mod endpoint;
mod flowing;
mod judging;
mod leaving;
mod note;
mod observing;
mod open_seat;
mod putting;
mod serving;
mod surroundings;
mod turn_end;
mod wire;

pub use endpoint::Endpoint;
pub use note::{Counts, LeaveReason, Note};
pub use open_seat::OpenSeat;
pub use serving::serve;
pub use surroundings::{Activity, Order, Surroundings};
pub use wire::{Found, Wire};
