//! Walks through what waits.
ghost use Rattle.std.specs.Prelude.{◌≡◌, ◌++◌, List, IfOk};
ghost use Rattle.sms_centre_rows.specs.waiting.Waiting.{all_at_once, if_due, is_part_of as is_part_of_message, is_same as is_same_of, next as next_of};
ghost use Rattle.sms_centre_rows.specs.waiting.Waiting.{preceding, waits_beside as waits_beside_of, withdrawn};
ghost use Rattle.sms_centre_rows.specs.declared.waiting.queued_part.QueuedPart.{QueuedPart as QueuedOf};

use sms_base::{MessageId, Moment};
use sms_centre_rows::waiting::QueuedPart;
use std::alloc::{AllocError, Global};

/// All are due at that moment.
pub(crate) fn queued_due_at(
    alloc: Global,
    waiting: &[QueuedPart],
    now: Moment,
) -> Result<Vec<QueuedPart>, AllocError>
    ensures { IfOk result (λ all_queued. all_queued.items ≡ all_at_once now waiting.now) }
{
    waiting
        .iter()
        .map(|queued| QueuedPart {
            due: now,
            ..*queued
        })
        .collect(alloc)
}

/// All but the parts of that message.
pub(crate) fn queued_but(
    alloc: Global,
    waiting: &[QueuedPart],
    id: MessageId,
) -> Result<Vec<QueuedPart>, AllocError>
    ensures { IfOk result (λ all_queued. all_queued.items ≡ withdrawn id waiting.now) }
{
    let mut all_queued = Vec::with_capacity(alloc, waiting.len())?;
    for queued in waiting {
        if !is_part_of(queued, id) {
            all_queued.push(*queued)?;
        }
    }
    Ok(all_queued)
}

fn is_part_of(queued: &QueuedPart, id: MessageId) -> bool
    ensures { result ≡ is_part_of_message id queued.now }
{
    queued.id.number() == id.number() && queued.number != 0
}

/// Of all that is due, the first to be offered, where `behind` is the first of what waits behind these. It looks from
/// the end, so that what is left is what the definition has behind it.
pub(crate) fn first_due(
    waiting: &[QueuedPart],
    now: Moment,
    behind: Option<QueuedPart>,
) -> Option<QueuedPart>
    ensures { (others : List QueuedOf) → behind ≡ next_of now others → result ≡ next_of now (waiting.now ++ others) }
{
    let mut first: Option<QueuedPart> = behind;
    for i in 0..waiting.len() {
        first = first_of_both(waiting[waiting.len() - 1 - i], now, first);
    }
    first
}

// Of the queued part, if it is due, and the other the one that goes first; the queued part, where they are told apart by nothing.
fn first_of_both(queued: QueuedPart, now: Moment, other: Option<QueuedPart>) -> Option<QueuedPart>
    ensures { result ≡ preceding (if_due now queued) other }
{
    if !queued.is_due(now) {
        return other;
    }
    match other {
        Some(other) if other.precedes(&queued) => Some(other),
        _ => Some(queued),
    }
}

/// Whether another one is due.
pub(crate) fn is_due_beside(waiting: &[QueuedPart], now: Moment, chosen: &QueuedPart) -> bool
    ensures { result ≡ waits_beside_of now chosen.now waiting.now }
{
    for queued in waiting {
        if queued.is_due(now) && !is_same(queued, chosen) {
            return true;
        }
    }
    false
}

fn is_same(queued: &QueuedPart, other: &QueuedPart) -> bool
    ensures { result ≡ is_same_of queued.now other.now }
{
    queued.id.number() == other.id.number() && queued.number == other.number
}
