//! The references that an event of the centre gives.
ghost use Rattle.std.specs.Prelude.{◌≡◌, ◌++◌, ◌∷◌, [], OnOk};
ghost use Rattle.sms_centre_rows.specs.messages.Messages.{message_at};
ghost use Rattle.sms_play.specs.CentreSide.{destination_in, parts_given, report_given, reports_given, source_in};
ghost use Rattle.sms_script.specs.declared.report.rows.Direction.TheVariants.{Down as DownOf};
ghost use Rattle.sms_player.specs.centre.Allocations.{each, part_of, report_of};

use sms_base::{Digits, Holder, Listed, MessageId, Moment};
use sms_centre_rows::messages::{MessageRow, PartRow};
use sms_centre_rows::reports::{ReportKind, ReportRow};
use sms_centre_rows::waiting::Revision;
use sms_rows::table::{Key, Table};
use sms_script::report::{Direction, GivenRow};
use std::alloc::AllocError;

// The digits of a message's destination, none of a message that is not there.
fn destination_of(messages: &Table<MessageRow>, id: MessageId) -> Digits
    ensures { result ≡ destination_in (message_at id messages.now.rows) }
{
    match messages.find(Key::of(id.number())) {
        Some(message) => message.handset.digits(),
        None => Digits::new(),
    }
}

// The digits of a message's source, none of a message that is not there.
fn source_of(messages: &Table<MessageRow>, id: MessageId) -> Digits
    ensures { result ≡ source_in (message_at id messages.now.rows) }
{
    match messages.find(Key::of(id.number())) {
        Some(message) => message.source.digits,
        None => Digits::new(),
    }
}

fn push_given(
    handset: Digits,
    moment: Moment,
    reference: u8,
    holder: Holder,
    given: &mut Listed<GivenRow>,
) -> Result<(), AllocError>
    ensures { OnOk result (given.new ≡ given.old ++ record {
      handset = handset;
      direction = DownOf;
      reference = reference;
      holder = holder;
      moment = moment;
    } ∷ []) }
{
    given.push(GivenRow {
        handset,
        direction: Direction::Down,
        reference,
        holder,
        moment,
    })
}

fn note_part(
    moment: Moment,
    messages: &Table<MessageRow>,
    change: &Revision<PartRow>,
    given: &mut Listed<GivenRow>,
) -> Result<(), AllocError>
    ensures { OnOk result (given.new ≡ given.old ++ part_of moment messages.now.rows change.now) }
{
    match change {
        Revision::Put(part) => {
            let handset = destination_of(messages, part.id);
            let holder = Holder::Part(part.id, part.number);
            push_given(handset, moment, part.reference, holder, given)
        }
        Revision::Amend { .. } => Ok(()),
        Revision::Remove(_) => Ok(()),
    }
}

/// The references of the new parts.
#[tactic(auto, using(crate::proofs::centre::Given::parts_each))]
pub(crate) fn note_parts(
    moment: Moment,
    messages: &Table<MessageRow>,
    changes: &[Revision<PartRow>],
    given: &mut Listed<GivenRow>,
) -> Result<(), AllocError>
    ensures { OnOk result (given.new ≡ given.old ++ parts_given moment messages.now.rows changes.now) }
{
    note_all_parts(moment, messages, changes, given)
}

fn note_all_parts(
    moment: Moment,
    messages: &Table<MessageRow>,
    changes: &[Revision<PartRow>],
    given: &mut Listed<GivenRow>,
) -> Result<(), AllocError>
    ensures { OnOk result (given.new ≡ given.old ++ each (part_of moment messages.now.rows) changes.now) }
{
    for change in changes {
        note_part(moment, messages, change, given)?;
    }
    Ok(())
}

fn note_kind(
    moment: Moment,
    messages: &Table<MessageRow>,
    id: MessageId,
    kind: &ReportKind,
    given: &mut Listed<GivenRow>,
) -> Result<(), AllocError>
    ensures { OnOk result (given.new ≡ given.old ++ report_given moment id (source_in (message_at id messages.now.rows)) kind.now) }
{
    match kind {
        ReportKind::Receipt => Ok(()),
        ReportKind::Status { reference, .. } => {
            let handset = source_of(messages, id);
            push_given(handset, moment, *reference, Holder::Report(id), given)
        }
        ReportKind::Unsent => Ok(()),
    }
}

fn note_report(
    moment: Moment,
    messages: &Table<MessageRow>,
    change: &Revision<ReportRow>,
    given: &mut Listed<GivenRow>,
) -> Result<(), AllocError>
    ensures { OnOk result (given.new ≡ given.old ++ report_of moment messages.now.rows change.now) }
{
    match change {
        Revision::Put(report) => note_kind(moment, messages, report.id, &report.kind, given),
        Revision::Amend { .. } => Ok(()),
        Revision::Remove(_) => Ok(()),
    }
}

/// The references of the new status reports.
#[tactic(auto, using(crate::proofs::centre::Given::reports_each))]
pub(crate) fn note_reports(
    moment: Moment,
    messages: &Table<MessageRow>,
    changes: &[Revision<ReportRow>],
    given: &mut Listed<GivenRow>,
) -> Result<(), AllocError>
    ensures { OnOk result (given.new ≡ given.old ++ reports_given moment messages.now.rows changes.now) }
{
    note_all_reports(moment, messages, changes, given)
}

fn note_all_reports(
    moment: Moment,
    messages: &Table<MessageRow>,
    changes: &[Revision<ReportRow>],
    given: &mut Listed<GivenRow>,
) -> Result<(), AllocError>
    ensures { OnOk result (given.new ≡ given.old ++ each (report_of moment messages.now.rows) changes.now) }
{
    for change in changes {
        note_report(moment, messages, change, given)?;
    }
    Ok(())
}
