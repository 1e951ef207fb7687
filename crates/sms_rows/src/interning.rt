//! Numbers and names that many rows share, each kept once.
//!
//! A number or name of up to 20 characters takes 88 octets, and the name of an account memory of its own. `Numbers` and
//! `Accounts` keep each of them once, under a small place, so that a row keeps the place. They only grow: a place once
//! given names its value for ever. A new value takes no memory where room was made before.

mod accounts;
mod number;
mod numbers;

pub use accounts::{Accounts, AccountsReserve};
pub use number::Number;
pub use numbers::{Numbers, NumbersReserve};
