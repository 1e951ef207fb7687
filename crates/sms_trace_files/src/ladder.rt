//! A run as a ladder of text: a lane for each side, and a line for each row.
//!
//! A row is an arrow from a lane to another or a sign in one, with its note behind. What arrives is an unbroken arrow, what
//! is sent a broken one. A frame that never arrives breaks off in a cross. The lanes are those of a picture.

mod arrows;
mod lines;
mod names;
mod text;

pub use text::put_ladder;
