//! The cores' code plays a script, exactly as the script's definition says.
//!
//! A play has the two cores on rows in memory, all of which are lent to it. At any time it represents a course of the
//! definition (`sms_play`), and its report is that course's. It reports want of memory only where a growth was refused;
//! the play ends then. A handset in play is in `sms_player_handset`.
//!
//! - `centre`: the centre of a script in play
//! - `heads`: which heads can be played, and the sides that they name
//! - `playing`: a script in play
#![tactic(auto)]

pub mod centre;
pub mod heads;
pub mod playing;
