//! Who looks on while a script is played, beside its judge: a ladder and a capture file.
//!
//! `Ladder` draws the run as lanes and arrows, in text or in a picture (`LadderForm`). `Capture` writes what crosses the centre's links as a capture file. Each
//! event costs as much as it adds. The scene and the judge are passed on from `sms_play::judging`.

mod arriving;
mod capture;
mod heads;
mod ladder;
mod lanes;
mod page;
mod requests;
mod since;

pub use capture::Capture;
pub use ladder::Ladder;
pub use page::LadderForm;
pub use sms_play::judging::{Judge, Scene, Watcher};
