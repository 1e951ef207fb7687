//! Whether the premises of the claims hold of a script in play.
//!
//! `Scene` is what there is to see of a script in play, and the course of the definition that it shows. `Watcher` looks
//! on, before each event and after it. `Judge` finds the first event that breaks a premise. Its verdict is that of the
//! definition (`sms_play`), event by event, where the course continues as events have it. Each event costs as much as
//! it adds.

mod premises;
mod scene;
mod watch;

pub use premises::Judge;
pub use scene::{Scene, Watcher};
