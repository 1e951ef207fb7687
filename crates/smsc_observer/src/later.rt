//! A socket that was not ready.
use std::io;

/// Whether there was no room, or nothing to read, meanwhile.
pub fn is_later(error: &io::Error) -> bool {
    matches!(
        error.kind(),
        io::ErrorKind::WouldBlock | io::ErrorKind::TimedOut | io::ErrorKind::Interrupted
    )
}
