//! A run as a picture: an SVG document with a lane for each side, and the rows of the ladder below one another.
//!
//! `PictureSoFar` gathers a run row by row, and `put_picture` writes the `Picture` that it becomes. A frame that arrives
//! is one arrow, from the row in which it was sent to the row in which it arrives. A frame that never arrives is half a
//! broken arrow, with a cross before its note. Lanes that no row touches are left out, and long notes are cut. Names and
//! notes are escaped, so that no reader takes them for markup (`laws`).

pub(crate) mod columns;
pub(crate) mod drawing;
pub mod laws;
mod looks;
mod markup;
mod notes;
mod places;
pub(crate) mod rows;
mod so_far;

pub use drawing::{Extent, Lane, Picture, put_picture};
pub use rows::{Departure, Passage, PictureRow, Shape, Sign};
pub use so_far::{PictureSoFar, Route};
