//! What happens in a run, who observes it, and the tables that an observer fills.
//!
//! The threads of a run tell an `Observer` what happens, as an `Event`. Whoever looks at `Counters` holds up none of them. Who sits at a seat behind
//! each event, and in which place a refused request is counted, is said by definitions (`specs/Occupants.antt`, `specs/Refusals.antt`). The crate
//! stands on the centre's definition, and not on the centre. So it is proved beside the centre.
//!
//! - `accounts`: what the sessions of each account did
//! - `client`: a client of the status page
//! - `counters`: what the threads of a run count
//! - `later`: a socket that was not ready
//! - `observer`: the observer of a run
//! - `pending`: what is pending in a run, by handset
//! - `refusals`: refused requests, by the account and the status
//! - `rows`: the messages of a store
//! - `seated`: how many seats there are, and how many sit at them
//! - `seats`: who sits at each seat
#![tactic(auto)]

mod accounts;
mod client;
mod counters;
mod later;
mod observer;
mod pending;
mod refusals;
mod rows;
mod seated;
mod seats;

pub use accounts::{AccountCounts, AccountTotals};
pub use client::{Client, Heard};
pub use counters::Counters;
pub use later::is_later;
pub use observer::{Event, Observer};
pub use pending::{Pending, PendingTable, WaitingHandset};
pub use refusals::{RefusalTable, Refusals};
pub use rows::{NO_MESSAGES, message_figures, with_message};
pub use seated::{SEATS, Seated};
pub use seats::SeatTable;
