//! The table of a centre's store, for a person.
//!
//! Each message has a line: its number, source, destination and state, and when it was submitted and last changed. The
//! line also has how often the message was tried in vain, and when it is tried next. Then each state has a line with
//! the number of its messages. The table is exactly that of `specs/centre_table/CentreTable.antt`, and never has a
//! message's text. Nothing is changed. A filter says which messages are shown. `stuck_table` has a line for each handset for
//! which something waits.

mod messages;
mod parts;
mod selecting;
mod stuck;
mod table;
mod totals;
mod writing;

pub use messages::own_parts;
pub use parts::{attempts_in, due_in};
pub use selecting::{Filter, last_of, selected};
pub use stuck::{StuckLine, stuck_table};
pub use table::centre_table;
pub use writing::{ShowError, show};
