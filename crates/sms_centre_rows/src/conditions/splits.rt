//! Split references of messages that are not wholly delivered (3GPP TS 23.040 9.2.3.24.8).
ghost use Rattle.std.specs.Prelude.{◌≡◌, filter_map, IfOk};
ghost use Rattle.sms_centre_rows.specs.conditions.SplitTest.{split_of as split_of_message, splits_differ as splits_differ_of};

use crate::conditions::differ::differ;
use crate::messages::MessageRow;
use sms_base::FinalState;
use sms_rows::interning::Number;
use std::alloc::{AllocError, Global};

/// A split reference of a source and a handset.
#[derive(Clone, Copy, Drop, PartialEq, Eq, Hash)]
pub struct Split {
    /// The number of the type of the source's number.
    pub ton: u8,
    /// The source's numbering plan.
    pub npi: u8,
    pub source: Number,
    pub handset: Number,
    pub reference: u16,
}

fn split_of(message: &MessageRow) -> Option<Split>
    ensures { result ≡ split_of_message message.now }
{
    if matches!(message.state, Some(FinalState::Delivered)) {
        return None;
    }
    let reference = message.split_reference?;
    Some(Split {
        ton: message.source.ton.number(),
        npi: message.source.npi,
        source: Number {
            digits: message.source.digits,
        },
        handset: Number {
            digits: message.handset.digits(),
        },
        reference,
    })
}

fn splits_of(alloc: Global, messages: &[MessageRow]) -> Result<Vec<Split>, AllocError>
    ensures { IfOk result (λ splits. splits.items ≡ filter_map split_of_message messages.now) }
{
    messages
        .iter()
        .filter_map(|message| split_of(message))
        .collect(alloc)
}

/// Whether no two messages of a source to a handset that aren't wholly delivered were split under one reference.
pub fn are_split_apart(alloc: Global, messages: &[MessageRow]) -> Result<bool, AllocError>
    ensures { IfOk result (λ b. b ≡ splits_differ_of (filter_map split_of_message messages.now)) }
{
    let splits = splits_of(alloc, messages)?;
    differ(alloc, &splits)
}
