//! What a centre begins with that isn't stored: what waits for each handset, the links, and the moment.
//!
//! Empty queues get what waits by the rows: parts of pending messages that aren't done (`put_parts`) and open status
//! reports (`put_reports`). Connected handsets get links, up at once, or at the first tick as after a restart
//! (`connect_all`). Each walks through its list once. `moment_of` and `moment_among` are the greatest moment that rows
//! have seen.

mod connecting;
mod filling;
mod moments;

pub use connecting::connect_all;
pub use filling::{put_parts, put_reports};
pub use moments::{moment_among, moment_of};
