//! Which octets rows have under a key, for all keeps of a centre.
//!
//! `specs/octets` has the definition: the TPDU of a part, or of the status report of a message. `copy_of_setup` gives
//! each load a setup of its own, since a setup is handed in and not stored. `copy_of_account` does so of an account that
//! comes as a centre runs.

mod copying;

pub use copying::{
    copy_of_account, copy_of_accounts, copy_of_kind_octets, copy_of_octets, copy_of_setup,
};
