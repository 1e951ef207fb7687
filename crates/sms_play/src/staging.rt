//! The frames of a script in play, by number, as the script's definition (`sms_play`) has them.

mod frames;

pub use frames::frame_at;
