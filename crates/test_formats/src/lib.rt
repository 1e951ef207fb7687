//! Tests of values, rows and formats, links, SMPP sessions and the hub, over their public calls.
//!
//! They try what no clause says: worked values and exchanges, octets of other implementations, each call at its
//! greatest size, and runs on real threads. Each call has ample memory, so that none may give up.
//!
//! - `formats`: moments, addresses and tables, and TPDUs
//! - `frames`: units of the relay layer; frames and transactions of the control layer
//! - `hub`: `sms_hub` on real threads
//! - `links`: one end of a link, with what its transactions carry
//! - `pdus`: PDUs of SMPP
//! - `smpp`: SMPP sessions
//! - `texts`: the alphabet, the header and parts of a long text, and joining them
#![tactic(auto)]

#[cfg(test)]
mod examples;
pub mod formats;
pub mod frames;
pub mod hub;
pub mod links;
pub mod pdus;
#[cfg(test)]
mod rows;
pub mod smpp;
pub mod texts;
