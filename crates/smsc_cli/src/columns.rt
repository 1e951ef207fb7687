//! Cells of a table, each filled up to the width of its column, and texts on one line.
//!
//! A message's text, or the name of its originator, may have any character. A space replaces each control character, so
//! that it can't begin a line of its own or steer a terminal.

mod cells;

pub use cells::{put_cell, put_name, put_number, put_text};
