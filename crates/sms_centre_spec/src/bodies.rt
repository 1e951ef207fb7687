//! What a centre wants of the store of its rows.
//!
//! `CentreStore` is a keep of a centre's rows that gives bodies. Its commits make of its rows what a centre's changes
//! make of them. It can be asked for the rows once more after a refused commit. A centre asks for a part's TPDU by the
//! part's key, and for a status report's by its message and number 0. The definition in `sms_centre_spec::octets` says
//! what a store answers, whatever rows it has. The law here says that of sound rows this is the TPDU that was asked
//! for.

mod centre_store;
pub mod laws;

pub use centre_store::CentreStore;
