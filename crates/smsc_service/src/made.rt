//! What came of a stimulus.
use sms_centre::CentreAnswer;
use sms_centre_spec::jobs::Reply;
use sms_keeper::{Fate, Outs};

/// What came of a stimulus, and what it gives once its group is committed.
#[derive(Drop)]
pub(crate) struct Made {
    pub(crate) fate: Fate,
    pub(crate) outs: Outs<Reply>,
    /// The answer of an event that happened, if it has one.
    pub(crate) told: Option<CentreAnswer>,
}
