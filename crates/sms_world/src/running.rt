//! A whole script, run: opened from its head, played to its end, and reported.
//!
//! `play` answers the report of a script, and its contract has the headline. `premises` answers the first event that breaks
//! a premise of the headline. `report_of` makes the text of a report of the text of a script. `run_sim` reads the one and
//! writes the other. A bad line or a fault ends it, and then it writes nothing. `run_ladder` and `run_picture` draw the
//! run. `run_capture` writes what crosses the centre's links. The centre, its rows and the handsets have one owner each,
//! below, and are lent to the play (`sms_player::playing`). `NoMemory` is answered only where a growth was refused.

mod ending;
mod opening;
mod run;
mod typing;
mod verdict;
mod whole;

pub use run::{SimError, report_of, run_capture, run_ladder, run_picture, run_sim};
pub use whole::{play, premises};
