use crate::transaction::TransactionFlag;
use sms_base::{Listed, Octets};

/// Frames to send, in order.
pub type Frames = Listed<Octets>;

/// What is passed up to the layer above.
#[derive(Drop)]
pub enum Up {
    /// A unit of the other side's: it opens a transaction of the other side (`FromOriginator`),
    /// or it answers the one that this side began (`ToOriginator`).
    Unit { flag: TransactionFlag, unit: Octets },
    /// The transaction that this side began ended without an answer.
    Failed,
}

/// What a call gives: frames to send and at most one thing to pass up.
#[derive(Drop)]
pub struct Out {
    pub frames: Frames,
    pub up: Option<Up>,
}
