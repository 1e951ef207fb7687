//! Links to the handsets that a centre starts with.
ghost use Rattle.std.specs.Prelude.{ℕ, List, [], OnOk};
ghost use Rattle.sms_centre_queue.specs.queues.Representing.{DraftRepresents};
ghost use Rattle.sms_centre_recovery.specs.starting.Starting.{connected, links_of};
ghost use Rattle.sms_centre_rows.specs.waiting.Links.{Links, link_of, put_link};
ghost use Rattle.sms_centre_rows.specs.waiting.References.{Allocations};
ghost use Rattle.sms_centre_rows.specs.declared.waiting.queued_part.QueuedPart.{QueuedPart as QueuedOf};
ghost use Rattle.sms_centre_spec.specs.SoundCore.{AreDifferent};

use sms_base::Msisdn;
use sms_centre_queue::queues::DeliveryQueuesDraft;
use std::alloc::AllocError;

fn connect(handset: Msisdn, is_up: bool, queues: &mut DeliveryQueuesDraft) -> Result<(), AllocError>
    ensures { OnOk result ((g : Allocations) (links : Links) (waiting : List ℕ → List QueuedOf) → DraftRepresents g links waiting queues.old
        → DraftRepresents g (put_link (connected is_up (link_of handset links.all)) links) waiting queues.new) }
{
    if is_up {
        queues.raise(handset)
    } else {
        queues.expect(handset)
    }
}

/// Links to these handsets, where there are none.
pub fn connect_all(
    handsets: &[Msisdn],
    are_up: bool,
    queues: &mut DeliveryQueuesDraft,
) -> Result<(), AllocError>
    requires { AreDifferent handsets.now }
    ensures { OnOk result ((g : Allocations) (waiting : List ℕ → List QueuedOf)
        → DraftRepresents g (record { all = []; frames = []; read = [] }) waiting queues.old
        → DraftRepresents g (record { all = links_of are_up handsets.now; frames = []; read = [] }) waiting queues.new) }
{
    for handset in handsets {
        connect(*handset, are_up, queues)?;
    }
    Ok(())
}
