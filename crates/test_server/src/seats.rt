//! Tests of endpoints at the seats of a hub: sessions of applications and links of handsets, without wire or hub.
//!
//! A course is a table: what is done with an endpoint, turn by turn, and what it has to send and put.

#[cfg(test)]
mod applications;
#[cfg(test)]
mod links;
#[cfg(test)]
pub(crate) mod turns;
