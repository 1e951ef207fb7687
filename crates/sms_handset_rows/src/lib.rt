//! The rows of a handset, and what needs no event: groups, references, and whether rows are sound.
//!
//! A handset's rows are its inbox, the TPDUs accepted last, its outbox and the groups that its owner discarded. The
//! calls of this crate are functions over lists of these rows, each equal to its definition in `specs/`. The index of
//! open groups has exactly the groups of the entries. The tests of rows answer exactly whether a handset can have left
//! such rows, and take no memory.
//!
//! - `inbox`: entries, groups of parts and their index, joining, TPDUs accepted last
//! - `outbox`: SUBMITs and RP-SMMA to send, references, how a transfer's end settles an entry
#![tactic(auto)]

pub mod inbox;
pub mod outbox;
