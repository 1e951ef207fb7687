//! Rows by their keys, and the store that a core wants of them.
//!
//! A core changes its rows in two steps. It plans changes, with all the memory that they need, and commits them. Then
//! it adopts them, which takes no memory and can't fail. A table has exactly the rows that were put and not removed, in
//! the order of their keys. A `Keep` takes all changes of an event or none.
//!
//! - `expiry`: the moments at which pending messages expire
//! - `index`: rows in the order of their keys, which a core and its plans share
//! - `interning`: numbers and names, each kept once under a place
//! - `keep`: the traits of a store, and the calls that it refused
//! - `memory`: lists of rows in memory, for a keep that is no database
//! - `table`: tables of rows by their keys, between events and within one
#![tactic(auto)]

pub mod expiry;
pub mod index;
pub mod interning;
pub mod keep;
pub mod memory;
pub mod table;
