//! The frames of a link between a handset and the centre, in the octets of a connection.
//!
//! Two octets in front of a frame have its length. `FrameBuffer` takes octets as they arrive and shows the frame at the
//! front in place, until it is cut off. The frames are those of the whole stream, however it was cut into pieces on its
//! way. Octets that are no such stream are refused as soon as the wrong length is there.

mod buffer;
mod fault;
pub mod laws;
mod writing;

pub use buffer::FrameBuffer;
pub use fault::FramingFault;
pub use writing::{is_frame, push_frame};
