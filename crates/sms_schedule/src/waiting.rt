//! What waits for one handset: parts and status reports, in the order of messages and numbers.
//!
//! A `WaitingParts` is a list that copies share, but for what was added last. Its calls are the functions over plain
//! lists in `sms_centre_rows/specs/waiting/Waiting.antt`. A call that finds no memory leaves it in no stated state: plan
//! on a copy, and install it when all is done.

mod held;
mod ordered_rows;
mod queued_parts;
mod shared_parts;
mod waiting_parts;

pub use waiting_parts::WaitingParts;
