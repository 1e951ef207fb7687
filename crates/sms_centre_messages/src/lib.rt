//! What a centre keeps in memory of messages and parts, in the place of their rows.
//!
//! The memory is compact: numbers and names once each, parts without their TPDUs, claims on references as counts. It
//! answers as the definition does over all rows. Whatever rows it represents before a change, it represents the changed
//! rows after it. A change within an event takes the memory that putting it in needs.
//!
//! - `message_index`: messages, parts and the moments at which they expire
//! - `reference_moves`: laws: what every event changes of messages and parts is a move of claims
//! - `references`: which references and TP-MRs earlier messages claim, as counts
#![tactic(auto)]

pub mod message_index;
pub mod reference_moves;
pub mod references;
