//! A run of the server.
//!
//! `serve` lends a centre to a keeper in the calling thread. A thread accepts connections at two listeners. Each of 32
//! seats has a thread that serves its connection, and one that reads it. They share the keeper's queues, the operator's
//! orders and which handset has a link at which seat.
//!
//! - `accepting`: connections, accepted at both ports
//! - `account_book`: the accounts of a run
//! - `allowances`: what the accounts of a run may do for now
//! - `board`: what the threads of a run share
//! - `clock`: the time of a run
//! - `connection`: the ports, and the wire of a connection that was accepted
//! - `entrance`: the listeners, and the way from them to the seats
//! - `link_seats`: which handset has its link at which seat
//! - `poller`: what wakes the thread that accepts connections
//! - `fault`: why a run ended early
//! - `endpoints`: the threads of the seats
//! - `server`: the threads of a run
//! - `loopback`: a server and its clients in one process
//! - `observed_keep`: a keep whose commits are reported
//! - `orders`: what an operator orders of a run
//! - `rates`: how many requests of an account are put in a second
//! - `refusing`: a connection that is refused
//! - `run`: a run
//! - `seat_thread`: the threads of the seats, each of which hands its seat back
//! - `occupancy`: which connections may sit at the seats
//! - `telling`: what an observer is told

mod accepting;
mod account_book;
mod allowances;
mod board;
mod clock;
mod connection;
mod endpoints;
mod entrance;
mod fault;
mod link_seats;
mod loopback;
mod observed_keep;
mod occupancy;
mod orders;
mod poller;
mod rates;
mod refusing;
mod run;
mod seat_thread;
mod server;
mod telling;

pub use account_book::AccountBook;
pub use allowances::{Allowance, Allowances};
pub use clock::{Clocks, RunClock, milliseconds};
pub use connection::Ports;
pub use fault::ServeFault;
pub use loopback::{Loopback, loopback_pair};
pub use observed_keep::ObservedKeep;
pub use orders::Orders;
pub use rates::{Rate, no_account_passes_its_rate};
pub use run::{serve, serve_machine};
pub use server::Given;
