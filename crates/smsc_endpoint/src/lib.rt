//! Sessions of applications and links of handsets at the seats of a hub, between octets and jobs.
//!
//! `Esme` is the session of an application at a seat, `LinkEndpoint` the link of a handset. Received octets, and
//! the replies of the seat, become octets to send and jobs to put, in order. Neither knows of sockets or threads.
//! `smsc_loop` runs one of them between a connection and a seat.
//!
//! - `bind_name`: the name that a refused bind gives
//! - `esme`: the session of an application at a seat
//! - `first_frame`: the frame that names the handset of a link
//! - `laws`: laws of endpoints
//! - `link_access`: who may have the link of a number
//! - `link_endpoint`: the link of a handset at a seat
//! - `link_stage`: how far a link is
//! - `outbox`: octets to send and jobs to put
//! - `pending`: what the session of an application waits for
//! - `refusing`: the octets that a server sends by itself
//! - `responses`: what answers a request, by the answer of the centre
#![tactic(auto)]

mod bind_name;
mod esme;
mod first_frame;
pub mod laws;
mod link_access;
mod link_endpoint;
mod link_stage;
mod outbox;
mod pending;
mod refusing;
mod responses;

pub use esme::Esme;
pub use link_access::{LinkAccess, LinkSecret};
pub use link_endpoint::LinkEndpoint;
pub use refusing::{CONGESTION, ENQUIRE_LINK, NO_ROOM, PROTOCOL_ERROR};
