//! A relay run: one unit of a handset through a centre without rows.
//!
//! `relay_once` gives exactly what the centre's definition sends for the unit. `run_relay` reads the unit as a line of
//! hexadecimal digits, and writes a line for each frame. Its reader and writer are such as a contract can name. The crate
//! has no seats and no rows, so that it stands on the centre alone and is proved beside the server.
//!
//! - `bodies`: a store without rows
//! - `centre`: a centre without rows, and one frame
//! - `lines`: lines of hexadecimal digits
//! - `once`: one unit of a handset
//! - `relay_laws`: what is sent for one unit, by the formats alone
//! - `run`: a line in, a line for each frame out
#![tactic(auto)]

mod bodies;
mod centre;
mod lines;
mod once;
pub mod relay_laws;
mod run;

pub use crate::relay_laws::Relayed;
pub use once::relay_once;
pub use run::{RunError, run_relay};
