//! The rows of a ladder, and their notes.
//!
//! A row is an arrow from a lane to another or a sign in one, with a note. `notes` says what a frame carries, how a
//! request was answered and what a receipt reports. `causes` says in words why a frame refuses. `SentSoFar` keeps what
//! crossed the links, so that a repeated frame is recognised. `Text` gives the lines of a script one after another.
//! `sms_trace::watching` draws with these.

pub mod causes;
pub mod notes;
mod rows;
mod sent;
pub mod shown;
mod text;

pub use rows::{Arrow, Row};
pub use sent::SentSoFar;
pub use text::Text;
