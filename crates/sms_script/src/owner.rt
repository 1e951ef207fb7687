//! The lines of a handset's owner.
//!
//! They are `write TO REPORT HEX`, `delete ENTRY` and `discard ENTRY`: those of a script without the number of the
//! handset behind their first word. `read_acts` answers the acts of all lines, in order, or the number of the first bad
//! line, whatever memory there is. Want of memory is reported of good lines alone.

mod act;
pub mod laws;
mod line;
mod reading;

pub use act::OwnersAct;
pub use reading::read_acts;
