//! Tests of a centre's rows as tables: each answers exactly whether the definition's condition holds of them.
ghost use Rattle.std.specs.Prelude.{◌≡◌, ◌↔◌, ◌&&◌, ℕ, List, true, IfOk};
ghost use Rattle.sms_base.specs.Among.{Among};
ghost use Rattle.sms_centre_rows.specs.messages.SoundMessages.{SoundMessages};
ghost use Rattle.sms_centre_rows.specs.declared.messages.message.MessageRow.{MessageRow as MessageRowOf};
ghost use Rattle.sms_centre_rows.specs.reports.SoundReports.{SoundReports};
ghost use Rattle.sms_centre_rows.specs.reports.Waiting.{waiting_for};
ghost use Rattle.sms_centre_rows.specs.waiting.References.{handset_at};
ghost use Rattle.sms_centre_rows.specs.waiting.SoundAllocations.{SoundAllocations};
ghost use Rattle.sms_centre_rows.specs.waiting.SoundWaiting.{SoundWaiting};
ghost use Rattle.sms_centre_spec.specs.SoundRows.{AreSplitApart, AreTimes, HasReportAddress};

use crate::conditions::setup_and_times::{
    are_dated, are_made, are_submitted, have_report_addresses,
};
use sms_centre_rows::conditions::{
    are_given, are_mentioned, are_messages, are_once, are_parts, are_parts_given, are_priorities,
    are_reports, are_reports_given, are_split_apart, have_numbers_apart, have_references_apart,
    places_of,
};
use sms_centre_rows::messages::{MessageRow, PartRow, PriorityRow};
use sms_centre_rows::reports::ReportRow;
use sms_centre_rows::waiting::{HandsetRow, ReferenceRow};
use sms_rows::table::Table;
use std::alloc::{AllocError, Global};

/// Whether both hold. Both are judged.
pub fn both(one: bool, other: bool) -> bool
    ensures { result ≡ one && other }
{
    one && other
}

/// Whether the moments of rows are such as a centre can start with.
pub fn times_are_sound(
    messages: &Table<MessageRow>,
    references: &Table<ReferenceRow>,
    reports: &Table<ReportRow>,
) -> bool
    ensures { (result ≡ true) ↔ AreTimes messages.now.rows references.now.rows reports.now.rows }
{
    let submitted = are_submitted(messages.as_slice());
    let dated = are_dated(references.as_slice());
    let made = are_made(reports.as_slice());
    both(submitted, both(dated, made))
}

/// Whether messages, parts and priorities are sound.
pub fn messages_are_sound(
    messages: &Table<MessageRow>,
    parts: &Table<PartRow>,
    priorities: &Table<PriorityRow>,
) -> bool
    ensures { (result ≡ true) ↔ SoundMessages messages.now.rows parts.now.rows priorities.now.rows }
{
    let each_message = are_messages(messages.as_slice(), parts, priorities);
    let each_part = are_parts(parts.as_slice(), messages);
    let each_priority = are_priorities(priorities.as_slice(), messages);
    both(each_message, both(each_part, each_priority))
}

/// Whether handsets and references are sound.
pub fn allocations_are_sound(
    alloc: Global,
    handsets: &Table<HandsetRow>,
    references: &Table<ReferenceRow>,
) -> Result<bool, AllocError>
    ensures { IfOk result (λ b. (b ≡ true) ↔ SoundAllocations handsets.now.rows references.now.rows) }
{
    let mentioned = are_mentioned(handsets.as_slice(), references);
    let given = are_given(references.as_slice(), handsets);
    let apart = have_numbers_apart(alloc, handsets.as_slice())?;
    Ok(both(mentioned, both(given, apart)))
}

/// Whether reports are sound.
pub fn reports_are_sound(
    alloc: Global,
    messages: &Table<MessageRow>,
    reports: &Table<ReportRow>,
) -> Result<bool, AllocError>
    ensures { IfOk result (λ b. (b ≡ true) ↔ SoundReports messages.now.rows reports.now.rows) }
{
    let each = are_reports(reports.as_slice(), messages);
    let once = are_once(alloc, reports.as_slice())?;
    Ok(both(each, once))
}

/// Whether what waits for each handset is sound, where all else is.
pub fn waiting_is_sound(
    alloc: Global,
    handsets: &Table<HandsetRow>,
    references: &Table<ReferenceRow>,
    messages: &Table<MessageRow>,
    priorities: &Table<PriorityRow>,
    parts: &Table<PartRow>,
    reports: &Table<ReportRow>,
) -> Result<bool, AllocError>
    ensures { IfOk result (λ b. SoundAllocations handsets.now.rows references.now.rows
        → SoundMessages messages.now.rows parts.now.rows priorities.now.rows → SoundReports messages.now.rows reports.now.rows →
        ((m : MessageRowOf) → Among m messages.now.rows → HasReportAddress m.originator m.source)
        → (b ≡ true) ↔ ((number : List ℕ) → SoundWaiting (handset_at number handsets.now.rows) references.now.rows
        (waiting_for number messages.now.rows priorities.now.rows parts.now.rows reports.now.rows))) }
{
    let places = places_of(alloc, handsets.as_slice())?;
    let given = are_parts_given(&places, references, messages, parts.as_slice());
    let reported = are_reports_given(&places, references, messages, reports.as_slice());
    let told = have_references_apart(
        alloc,
        &places,
        messages,
        parts.as_slice(),
        reports.as_slice(),
    );
    drop(places);
    let apart = told?;
    Ok(both(given, both(reported, apart)))
}

/// Whether messages that aren't wholly delivered were split under references that differ.
pub fn splits_are_sound(alloc: Global, messages: &Table<MessageRow>) -> Result<bool, AllocError>
    ensures { IfOk result (λ b. (b ≡ true) ↔ AreSplitApart messages.now.rows) }
{
    let apart = are_split_apart(alloc, messages.as_slice())?;
    Ok(apart)
}

/// Whether each message of a handset is from a number to which a status report can be sent.
pub fn report_addresses_are_sound(messages: &Table<MessageRow>) -> bool
    ensures { (result ≡ true) ↔ ((m : MessageRowOf) → Among m messages.now.rows → HasReportAddress m.originator m.source) }
{
    have_report_addresses(messages.as_slice())
}
