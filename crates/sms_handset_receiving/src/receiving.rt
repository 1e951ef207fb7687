//! Receiving a message: it is stored before it is acknowledged.
ghost use Rattle.std.specs.Prelude.{◌≡◌, IfOk, OnOk, Some};
ghost use Rattle.sms_relay.specs.RelayReading.{down_at as unit_at};
ghost use Rattle.sms_tpdu.specs.TpduReading.{down_at};
ghost use Rattle.sms_tpdu.specs.declared.carrier.Carrier.TheVariants.{InData as Data};
ghost use Rattle.sms_handset_draft.specs.Draft.{no_changes};
ghost use Rattle.sms_handset_draft.specs.GroupChanges.{data_groups, deliver_groups, member_groups, new_part_groups, part_groups, tpdu_groups, unit_groups};
ghost use Rattle.sms_handset_rows.specs.inbox.Groups.{key_of as key_of_deliver, mark_of, members as members_of};
ghost use Rattle.sms_handset_draft.specs.Receiving.{accept as accept_of, data_received as data_received_of, deliver_received as deliver_received_of};
ghost use Rattle.sms_handset_draft.specs.Receiving.{member_received as member_received_of, new_part_received as new_part_received_of, no_room as no_room_of};
ghost use Rattle.sms_handset_draft.specs.Receiving.{note as note_of, part_received as part_received_of, single_received as single_received_of};
ghost use Rattle.sms_handset_draft.specs.Receiving.{tpdu_received as tpdu_received_of, unit_received as unit_received_of};
ghost use Rattle.sms_handset_rows.specs.outbox.Reports.{reported as reported_of};

use sms_base::{Holder, Octets};
use sms_handset_draft::{Draft, NoMemory};
use sms_handset_rows::inbox::{
    DiscardedGroup, Group, LastAccepted, Members, Regrouping, find_mark, is_among, is_double,
    key_of,
};
use sms_handset_rows::outbox::reported;
use sms_relay::{Rp, RpCause, fault_cause, read_down as read_unit, reference_octet};
use sms_tpdu::{Carrier, Deliver, Down, StatusReport, read_down};

// The TPDU is the last under its reference from now on.
fn accept(draft: &mut Draft<'_>, reference: u8, tag: Holder, tpdu: &[u8]) -> Result<(), NoMemory>
    ensures { OnOk result (draft.new ≡ accept_of reference tag tpdu.now draft.old) }
{
    let tpdu = Octets::copy_of(draft.alloc(), tpdu)?;
    draft.put_last(LastAccepted { reference, tpdu })?;
    draft.acknowledge(reference, tag)
}

fn no_room(draft: &mut Draft<'_>, reference: u8, tag: Holder) -> Result<(), NoMemory>
    ensures { OnOk result (draft.new ≡ no_room_of reference tag draft.old) }
{
    draft.flag();
    draft.refuse(
        reference,
        tag,
        RpCause::MemoryCapacityExceeded,
        MEMORY_CAPACITY_EXCEEDED,
    )
}

// A message that is no part of an open group.
fn single_received(
    draft: &mut Draft<'_>,
    reference: u8,
    tag: Holder,
    tpdu: &[u8],
) -> Result<(), NoMemory>
    requires untouched { draft.old.changes ≡ no_changes }
    ensures { OnOk result (draft.new ≡ single_received_of reference tag tpdu.now draft.old) }
{
    if draft.has_room() {
        draft.store_single(tpdu)?;
        accept(draft, reference, tag, tpdu)
    } else {
        no_room(draft, reference, tag)
    }
}

// Accepts a part that is stored, and passes on what became of its group.
fn accept_stored(
    draft: &mut Draft<'_>,
    reference: u8,
    tag: Holder,
    tpdu: &[u8],
    change: Regrouping,
) -> Result<Regrouping, NoMemory>
    ensures moves { OnOk result (draft.new ≡ accept_of reference tag tpdu.now draft.old) }
    ensures change { IfOk result (λ passed. passed ≡ change) }
{
    accept(draft, reference, tag, tpdu)?;
    Ok(change)
}

// A part whose number does not stand in its group.
fn new_part_received(
    draft: &mut Draft<'_>,
    reference: u8,
    tag: Holder,
    tpdu: &[u8],
    group: &Group,
    number: u8,
    members: &Members<'_>,
) -> Result<Regrouping, NoMemory>
    requires untouched { draft.old.changes ≡ no_changes }
    ensures moves { OnOk result (draft.new ≡ new_part_received_of reference tag tpdu.now group.now number members.now draft.old) }
    ensures groups { IfOk result (λ change. change ≡ new_part_groups tpdu.now group.now number members.now draft.old) }
{
    if draft.has_room() {
        let change = draft.store_part(group, number, tpdu, members)?;
        accept_stored(draft, reference, tag, tpdu, change)
    } else {
        no_room(draft, reference, tag)?;
        Ok(Regrouping::Unchanged)
    }
}

// A part of no discarded group.
fn member_received(
    draft: &mut Draft<'_>,
    reference: u8,
    tag: Holder,
    tpdu: &[u8],
    group: &Group,
    number: u8,
) -> Result<Regrouping, NoMemory>
    requires untouched { draft.old.changes ≡ no_changes }
    ensures moves { OnOk result (draft.new ≡ member_received_of reference tag tpdu.now group.now number
        (members_of group.now draft.old.rows.entries) draft.old) }
    ensures groups { IfOk result (λ change. change ≡ member_groups tpdu.now group.now number (members_of group.now draft.old.rows.entries) draft.old) }
{
    let members = draft.members(group);
    if members.has(number) {
        single_received(draft, reference, tag, tpdu)?;
        Ok(Regrouping::Unchanged)
    } else {
        new_part_received(draft, reference, tag, tpdu, group, number, &members)
    }
}

// A part of a discarded group.
fn marked_part_received(
    draft: &mut Draft<'_>,
    reference: u8,
    tag: Holder,
    tpdu: &[u8],
    group: &Group,
    number: u8,
    mark: &DiscardedGroup,
) -> Result<(), NoMemory>
    requires untouched { draft.old.changes ≡ no_changes }
    ensures { OnOk result (draft.new ≡ part_received_of reference tag tpdu.now group.now number (Some mark.now) draft.old) }
{
    if is_among(number, mark.seen.as_slice()) {
        single_received(draft, reference, tag, tpdu)
    } else {
        draft.mark(number, mark)?;
        accept(draft, reference, tag, tpdu)
    }
}

// A part of a long message.
fn part_received(
    draft: &mut Draft<'_>,
    reference: u8,
    tag: Holder,
    tpdu: &[u8],
    group: &Group,
    number: u8,
) -> Result<Regrouping, NoMemory>
    requires untouched { draft.old.changes ≡ no_changes }
    ensures moves { OnOk result (draft.new ≡ part_received_of reference tag tpdu.now group.now number (mark_of group.now draft.old.rows.marks) draft.old) }
    ensures groups { IfOk result (λ change. change ≡ part_groups tpdu.now group.now number (mark_of group.now draft.old.rows.marks) draft.old) }
{
    match find_mark(group, draft.marks()) {
        Some(mark) => {
            marked_part_received(draft, reference, tag, tpdu, group, number, mark)?;
            Ok(Regrouping::Unchanged)
        }
        None => member_received(draft, reference, tag, tpdu, group, number),
    }
}

fn deliver_received(
    draft: &mut Draft<'_>,
    reference: u8,
    tag: Holder,
    tpdu: &[u8],
    message: &Deliver<'_>,
) -> Result<Regrouping, NoMemory>
    requires untouched { draft.old.changes ≡ no_changes }
    ensures moves { OnOk result (draft.new ≡ deliver_received_of reference tag tpdu.now message.now (key_of_deliver message.now) draft.old) }
    ensures groups { IfOk result (λ change. change ≡ deliver_groups tpdu.now message.now (key_of_deliver message.now) draft.old) }
{
    match key_of(
        message.user_data_header_indicator,
        message.user_data.octets.as_slice(),
    ) {
        Some(key) => {
            let group = Group {
                source: message.originating_address,
                reference: key.reference,
                total: key.total,
            };
            part_received(draft, reference, tag, tpdu, &group, key.number)
        }
        None => {
            single_received(draft, reference, tag, tpdu)?;
            Ok(Regrouping::Unchanged)
        }
    }
}

fn report_received(
    draft: &mut Draft<'_>,
    reference: u8,
    tag: Holder,
    tpdu: &[u8],
    report: &StatusReport<'_>,
) -> Result<(), NoMemory>
    requires untouched { draft.old.changes ≡ no_changes }
    ensures { OnOk result (draft.new ≡ accept_of reference tag tpdu.now (note_of report.now.status (reported_of report.now draft.old.rows.outbox) draft.old)) }
{
    let outbox = draft.outbox();
    draft.note(report.status, reported(report, outbox))?;
    accept(draft, reference, tag, tpdu)
}

fn tpdu_received(
    draft: &mut Draft<'_>,
    reference: u8,
    tag: Holder,
    tpdu: &[u8],
) -> Result<Regrouping, NoMemory>
    requires untouched { draft.old.changes ≡ no_changes }
    ensures moves { OnOk result (draft.new ≡ tpdu_received_of reference tag tpdu.now (down_at Data tpdu.now) draft.old) }
    ensures groups { IfOk result (λ change. change ≡ tpdu_groups tpdu.now (down_at Data tpdu.now) draft.old) }
{
    match read_down(tpdu, Carrier::InData) {
        Ok(Down::Deliver(message)) => {
            return deliver_received(draft, reference, tag, tpdu, &message);
        }
        Ok(Down::StatusReport(report)) => report_received(draft, reference, tag, tpdu, &report)?,
        _ => draft.refuse(
            reference,
            tag,
            RpCause::InvalidMandatoryInformation,
            UNSPECIFIED,
        )?,
    }
    Ok(Regrouping::Unchanged)
}

// RP-DATA.
fn data_received(
    draft: &mut Draft<'_>,
    reference: u8,
    tag: Holder,
    tpdu: &[u8],
) -> Result<Regrouping, NoMemory>
    requires untouched { draft.old.changes ≡ no_changes }
    ensures moves { OnOk result (draft.new ≡ data_received_of reference tag tpdu.now draft.old) }
    ensures groups { IfOk result (λ change. change ≡ data_groups reference tpdu.now draft.old) }
{
    if is_double(tpdu, draft.last(reference)) {
        draft.acknowledge(reference, tag)?;
        Ok(Regrouping::Unchanged)
    } else {
        tpdu_received(draft, reference, tag, tpdu)
    }
}

/// A unit that opens a transaction of the centre's: what becomes of the open groups.
pub(crate) fn unit_received(
    draft: &mut Draft<'_>,
    tag: Holder,
    unit: &[u8],
) -> Result<Regrouping, NoMemory>
    requires untouched { draft.old.changes ≡ no_changes }
    ensures moves { OnOk result (draft.new ≡ unit_received_of tag unit.now (unit_at unit.now) draft.old) }
    ensures groups { IfOk result (λ change. change ≡ unit_groups (unit_at unit.now) draft.old) }
{
    match read_unit(unit) {
        Ok(
            Rp::DataUnit {
                reference,
                unit,
                ..
            },
        ) => data_received(draft, reference, tag, unit.as_slice()),
        Ok(_) => Ok(Regrouping::Unchanged),
        Err(fault) => {
            draft.reject(reference_octet(unit), tag, fault_cause(fault))?;
            Ok(Regrouping::Unchanged)
        }
    }
}

/// TP-FCS: memory capacity exceeded (3GPP TS 23.040 9.2.3.22).
const MEMORY_CAPACITY_EXCEEDED: u8 = 0xD3;

/// TP-FCS: unspecified error cause.
const UNSPECIFIED: u8 = 0xFF;
