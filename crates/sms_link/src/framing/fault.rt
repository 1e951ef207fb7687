//! Why octets are no stream of frames.
use thiserror::Error;

/// Why octets are no stream of frames. Nothing behind them can be read.
#[derive(Clone, Copy, Debug, PartialEq, Eq, Error)]
pub enum FramingFault {
    /// A length of 0.
    #[error("a frame without octets")]
    Empty,
    /// A length above 251.
    #[error("a frame of more than 251 octets")]
    TooLong,
}
