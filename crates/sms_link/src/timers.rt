//! The timers of a link and of the layer above it (3GPP TS 24.011 10). The lengths are this project's profile.
pub use sms_control::{MOST_REPEATS, TC1_STAR, TR1M, TR1N};

/// TRAM, in seconds: how long a handset waits before it sends an RP-SMMA again that was not acknowledged. 3GPP TS
/// 24.011 6.3.3 and 10 give 25 to 35.
pub const TRAM: u64 = 30;
