//! Parts and status reports that wait until another moment, and what waits for the source of a message.
ghost use Rattle.std.specs.Prelude.{◌≡◌, ℕ, List, Some, OnOk};
ghost use Rattle.sms_rows.specs.table.Keys.{pair_key};
ghost use Rattle.sms_rows.specs.table.Table.{put as put_in, row_at, without};
ghost use Rattle.sms_centre_rows.specs.waiting.Keys.{queued_key};
ghost use Rattle.sms_centre_rows.specs.waiting.Links.{Links};
ghost use Rattle.sms_centre_rows.specs.waiting.References.{Allocations};
ghost use Rattle.sms_centre_rows.specs.declared.waiting.queued_part.QueuedPart.{QueuedPart as QueuedOf};
ghost use Rattle.sms_centre_queue.specs.queues.Representing.{DraftRepresents, Waits};

use sms_base::{Digits, MessageId, Moment, Msisdn};
use sms_centre_queue::queues::DeliveryQueuesDraft;
use sms_centre_rows::waiting::QueuedPart;
use std::alloc::AllocError;

fn due_then(queued: QueuedPart, due: Moment) -> QueuedPart
    ensures { result ≡ record queued { due = due } }
{
    QueuedPart { due, ..queued }
}

/// What waits for the handset under that message and number is due then.
pub(crate) fn put_off(
    queues: &mut DeliveryQueuesDraft,
    number: Msisdn,
    id: MessageId,
    part: u8,
    due: Moment,
) -> Result<(), AllocError>
    ensures { OnOk result ((g : Allocations) (links : Links) (waiting after : List ℕ → List QueuedOf) (l : QueuedOf)
        → DraftRepresents g links waiting queues.old
        → row_at queued_key (pair_key id part) (waiting number) ≡ Some l → Waits number (put_in queued_key (record l { due = due })) waiting after
        → DraftRepresents g links after queues.new) }
{
    match queues.queued(&number, id, part) {
        Some(queued) => queues.put(number, due_then(queued, due)),
        None => Ok(()),
    }
}

// ---- a source whose digits are no number has no queue

/// The status report of that message waits no more for its source.
pub(crate) fn remove_report(
    queues: &mut DeliveryQueuesDraft,
    source: &Digits,
    id: MessageId,
) -> Result<(), AllocError>
    ensures { OnOk result ((g : Allocations) (links : Links) (waiting after : List ℕ → List QueuedOf) → DraftRepresents g links waiting queues.old
        → Waits source.now (without queued_key (pair_key id 0)) waiting after → DraftRepresents g links after queues.new) }
{
    match Msisdn::of_digits(source) {
        Some(number) => queues.remove(number, id, 0),
        None => Ok(()),
    }
}

/// The status report of that message is due then for its source.
pub(crate) fn put_report_off(
    queues: &mut DeliveryQueuesDraft,
    source: &Digits,
    id: MessageId,
    due: Moment,
) -> Result<(), AllocError>
    ensures { OnOk result ((g : Allocations) (links : Links) (waiting after : List ℕ → List QueuedOf) (l : QueuedOf)
        → DraftRepresents g links waiting queues.old
        → row_at queued_key (pair_key id 0) (waiting source.now) ≡ Some l → Waits source.now (put_in queued_key (record l { due = due })) waiting after
        → DraftRepresents g links after queues.new) }
{
    match Msisdn::of_digits(source) {
        Some(number) => put_off(queues, number, id, 0, due),
        None => Ok(()),
    }
}
