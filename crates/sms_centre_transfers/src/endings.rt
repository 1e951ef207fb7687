//! How a transfer to a handset ends (3GPP TS 24.011 8.2.5.4), and what becomes of what it was for.
ghost use Rattle.std.specs.Prelude.{◌≡◌, Some, true, false, OnOk};
ghost use Rattle.sms_centre_rows.specs.messages.Messages.{is_pending, message_at, part_at};
ghost use Rattle.sms_centre_rows.specs.messages.PartEntries.{part_entry};
ghost use Rattle.sms_centre_rows.specs.declared.messages.part.PartRow.{PartRow as PartRowOf};
ghost use Rattle.sms_centre_rows.specs.waiting.Trying.{finished as finished_of};
ghost use Rattle.sms_base.specs.declared.holder.Holder.TheVariants.{Part, Report};
ghost use Rattle.sms_centre_rows.specs.declared.reports.report.ReportRow.{ReportRow as ReportRowOf};
ghost use Rattle.sms_centre_spec.specs.Draft.{Draft, in_store, messages_in, on_links, parts_in, with_part_at};
ghost use Rattle.sms_centre_spec.specs.Transfers.{complete as complete_of, conclude as conclude_of, ended_with as ended_with_of, link_ended as link_ended_of};
ghost use Rattle.sms_centre_spec.specs.Transfers.{part_ended as part_ended_of, verdict_on as verdict_on_ending};
ghost use Rattle.sms_centre_draft.specs.Transfers.{IsReporting, IsWaiting};
ghost use Rattle.sms_centre_draft.specs.CentreDraft.{Represents};

use sms_base::{Carried, FinalState, Holder, MessageId, Msisdn};
use sms_centre_draft::{CentreDraft, finished, tried};
use sms_centre_reports::open_reports::ReportEntry;
use sms_centre_rows::messages::{MessageRow, PartEntry};
use sms_centre_spec::{Verdict, verdict_of};
use sms_link::Ending;
use std::alloc::AllocError;

// A message whose parts are all done is delivered.
fn complete(draft: &mut CentreDraft<'_>, message: &MessageRow) -> Result<(), AllocError>
    ensures { (d : Draft) → Represents d draft.old → message_at message.now.id (messages_in d.store) ≡ Some message.now → is_pending message.now ≡ true
        → OnOk result (Represents (in_store (complete_of message.now d.store) d) draft.new) }
{
    if draft.all_done(message.id) {
        return draft.end(FinalState::Delivered, message);
    }
    Ok(())
}

// The part was acknowledged.
fn part_settled(
    draft: &mut CentreDraft<'_>,
    entry: &PartEntry,
    message: &MessageRow,
) -> Result<(), AllocError>
    ensures { (d : Draft) (p : PartRowOf) → Represents d draft.old → part_at p.id p.number (parts_in d.store) ≡ Some p → part_entry p ≡ entry.now
        → message_at p.id (messages_in d.store) ≡ Some message.now → is_pending message.now ≡ true
        → OnOk result (Represents (in_store (complete_of message.now (with_part_at p (finished_of p.progress) d.store)) d) draft.new) }
{
    draft.part_done(entry, message, &finished(&entry.progress))?;
    complete(draft, message)
}

// A transfer of a part that waits has ended.
fn part_ended(
    draft: &mut CentreDraft<'_>,
    verdict: Verdict,
    entry: &PartEntry,
    message: &MessageRow,
) -> Result<(), AllocError>
    ensures { (d : Draft) (p : PartRowOf) → Represents d draft.old → part_at p.id p.number (parts_in d.store) ≡ Some p → part_entry p ≡ entry.now
        → message_at p.id (messages_in d.store) ≡ Some message.now → is_pending message.now ≡ true → p.progress.is_done ≡ false
        → OnOk result (Represents (in_store (part_ended_of verdict p message.now d.store) d) draft.new) }
{
    match verdict {
        Verdict::Settled => part_settled(draft, entry, message),
        Verdict::Again => draft.part_off(entry, message, &tried(draft.moment, &entry.progress)),
        Verdict::Refused => draft.end(FinalState::Undeliverable, message),
        Verdict::HandsetFull | Verdict::Late => Ok(()),
    }
}

// Nothing more is offered to a handset without memory.
fn link_ended(
    draft: &mut CentreDraft<'_>,
    verdict: Verdict,
    handset: Msisdn,
) -> Result<(), AllocError>
    ensures { (d : Draft) → Represents d draft.old → OnOk result (Represents (on_links (link_ended_of verdict handset d.links) d) draft.new) }
{
    match verdict {
        Verdict::HandsetFull => draft.fill(handset),
        Verdict::Settled | Verdict::Again | Verdict::Refused | Verdict::Late => Ok(()),
    }
}

// The transfer of a part that waits has ended so.
fn part_ended_at(
    draft: &mut CentreDraft<'_>,
    handset: Msisdn,
    id: MessageId,
    number: u8,
    ending: &Ending,
    entry: &PartEntry,
    message: &MessageRow,
) -> Result<(), AllocError>
    ensures { (d : Draft) (p : PartRowOf) → Represents d draft.old → IsWaiting id number entry.now message.now d.store p
        → OnOk result (Represents (ended_with_of (verdict_on_ending (Part id number) ending.now d.store) handset (Part id number) d) draft.new) }
{
    let verdict = verdict_of(ending);
    part_ended(draft, verdict, entry, message)?;
    link_ended(draft, verdict, handset)
}

// The transfer of an open status report has ended so.
fn status_ended_at(
    draft: &mut CentreDraft<'_>,
    handset: Msisdn,
    id: MessageId,
    ending: &Ending,
    entry: &ReportEntry,
    message: &MessageRow,
) -> Result<(), AllocError>
    ensures { (d : Draft) (r : ReportRowOf) → Represents d draft.old → IsReporting id entry.now message.now d.store r
        → OnOk result (Represents (ended_with_of (verdict_on_ending (Report id) ending.now d.store) handset (Report id) d) draft.new) }
{
    let verdict = verdict_of(ending);
    draft.status_ended(verdict, entry, message)?;
    link_ended(draft, verdict, handset)
}

// The transfer of a part has ended.
fn part_concluded(
    draft: &mut CentreDraft<'_>,
    handset: Msisdn,
    id: MessageId,
    number: u8,
    ending: &Ending,
) -> Result<(), AllocError>
    ensures { (d : Draft) → Represents d draft.old
        → OnOk result (Represents (ended_with_of (verdict_on_ending (Part id number) ending.now d.store) handset (Part id number) d) draft.new) }
{
    match draft.open_part(id, number)? {
        Some((entry, message)) => part_ended_at(
            draft, handset, id, number, ending, &entry, &message,
        ),
        None => Ok(()),
    }
}

// The transfer of a status report has ended.
fn status_concluded(
    draft: &mut CentreDraft<'_>,
    handset: Msisdn,
    id: MessageId,
    ending: &Ending,
) -> Result<(), AllocError>
    ensures { (d : Draft) → Represents d draft.old
        → OnOk result (Represents (ended_with_of (verdict_on_ending (Report id) ending.now d.store) handset (Report id) d) draft.new) }
{
    match draft.open_status(id)? {
        Some((entry, message)) => status_ended_at(draft, handset, id, ending, &entry, &message),
        None => Ok(()),
    }
}

/// The transfer to the handset has ended so; it concerns what it was for.
pub fn conclude(
    draft: &mut CentreDraft<'_>,
    handset: Msisdn,
    transfer: &Carried,
    ending: &Ending,
) -> Result<(), AllocError>
    ensures { (d : Draft) → Represents d draft.old → OnOk result (Represents (conclude_of handset transfer.now ending.now d) draft.new) }
{
    match transfer.tag {
        Holder::Part(id, number) => part_concluded(draft, handset, id, number, ending),
        Holder::Report(id) => status_concluded(draft, handset, id, ending),
        Holder::Entry(_) | Holder::Memory(_) => Ok(()),
    }
}
