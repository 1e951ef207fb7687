//! Writing: a text becomes SUBMITs in the outbox.
ghost use Rattle.std.specs.Prelude.{◌≡◌, ◌+◌, ◌<◌, ◌≤◌, List, Ok, length, All, IfOk, OnOk};
ghost use Rattle.sms_handset_rows.specs.outbox.References.{held_message_references as held_message_references_of, next_free as next_free_of};
ghost use Rattle.std.specs.Str.{chars};
ghost use Rattle.sms_base.specs.Address.{IsAddress};
ghost use Rattle.sms_concat.specs.declared.content.Part.{Part as PartOf};
ghost use Rattle.sms_concat.specs.Splitting.{split_of};
ghost use Rattle.sms_concat.specs.TextContent.{content_of_text};
ghost use Rattle.sms_concat.specs.UserData.{HasRoom, IsPart};
ghost use Rattle.sms_handset_draft.specs.Outbox.{follow};
ghost use Rattle.sms_handset.specs.OwnersActs.{count_split as count_split_of, write_part as write_part_of, write_parts as write_parts_of};
ghost use Rattle.sms_handset.specs.OwnersActs.{written as written_of};

use sms_base::Address;
use sms_concat::{Part, content_of_text, split};
use sms_handset_draft::{Counters, Draft, NoMemory};
use sms_handset_rows::outbox::{
    EntryState, OutEntry, following, held_message_references, next_free, submit_of_part,
};

// The next TP-MR that no unfinished entry holds.
fn free_message_reference(draft: &Draft<'_>) -> Result<u8, NoMemory>
    ensures { IfOk result (λ reference. reference ≡ next_free_of draft.now.rows.counters.message_reference (held_message_references_of draft.now.rows.outbox)) }
{
    let outbox = draft.outbox_now()?;
    let held = held_message_references(draft.alloc(), outbox.as_slice())?;
    Ok(next_free(draft.counters().message_reference, held.as_slice()))
}

// A part becomes an entry, under the next number and the next free references.
fn write_part(
    draft: &mut Draft<'_>,
    destination: &Address,
    report: bool,
    is_long: bool,
    part: &Part,
) -> Result<(), NoMemory>
    requires address { IsAddress destination.now }
    requires part { IsPart part.now }
    requires room { HasRoom part.now }
    requires numbers { draft.old.rows.counters.entry < 4294967295 }
    ensures { OnOk result (draft.new ≡ write_part_of destination.now report is_long part.now draft.old) }
{
    let message_reference = free_message_reference(draft)?;
    let reference = draft.free_reference()?;
    let tpdu = submit_of_part(draft.alloc(), message_reference, destination, report, part)?;
    let counters = draft.counters();
    draft.put_counters(Counters {
        entry: counters.entry + 1,
        message_reference: following(message_reference),
        reference: following(reference),
        ..counters
    });
    draft.put_out(OutEntry {
        number: counters.entry,
        message_reference,
        reference,
        destination: *destination,
        tpdu,
        is_long,
        state: EntryState::Queued,
        tries: 0,
        rejects_duplicates: false,
        due: None,
        status: None,
    })
}

fn write_parts(
    draft: &mut Draft<'_>,
    destination: &Address,
    report: bool,
    is_long: bool,
    parts: &[Part],
) -> Result<(), NoMemory>
    requires address { IsAddress destination.now }
    requires parts { All IsPart parts.now }
    requires room { All HasRoom parts.now }
    requires numbers { draft.old.rows.counters.entry + length parts.now ≤ 4294967295 }
    ensures { OnOk result (draft.new ≡ write_parts_of destination.now report is_long parts.now draft.old) }
{
    for part in parts {
        write_part(draft, destination, report, is_long, part)?;
    }
    Ok(())
}

// A text that is split uses up a reference for its header.
fn count_split(draft: &mut Draft<'_>, is_long: bool)
    ensures { draft.new ≡ count_split_of is_long draft.old }
{
    if is_long {
        let counters = draft.counters();
        draft.put_counters(Counters {
            concat_reference: counters.concat_reference.wrapping_add(1),
            ..counters
        });
    }
}

// The parts of a text become entries.
fn write_all(
    draft: &mut Draft<'_>,
    destination: &Address,
    report: bool,
    parts: &[Part],
) -> Result<(), NoMemory>
    requires address { IsAddress destination.now }
    requires parts { All IsPart parts.now }
    requires room { All HasRoom parts.now }
    requires numbers { draft.old.rows.counters.entry + length parts.now ≤ 4294967295 }
    ensures { OnOk result (draft.new ≡ written_of destination.now report parts.now draft.old) }
{
    let is_long = 1 < parts.len();
    count_split(draft, is_long);
    write_parts(draft, destination, report, is_long, parts)
}

// The owner writes a text, which was judged.
fn write(
    draft: &mut Draft<'_>,
    text: &str,
    destination: &Address,
    report: bool,
) -> Result<(), NoMemory>
    requires address { IsAddress destination.now }
    requires numbers { (parts : List PartOf) → split_of (content_of_text (chars text.now)) draft.old.rows.counters.concat_reference ≡ Ok parts
        → draft.old.rows.counters.entry + length parts ≤ 4294967295 }
    ensures { (parts : List PartOf) → split_of (content_of_text (chars text.now)) draft.old.rows.counters.concat_reference ≡ Ok parts
        → OnOk result (draft.new ≡ written_of destination.now report parts draft.old) }
{
    let content = content_of_text(draft.alloc(), text)?;
    match split(draft.alloc(), &content, draft.counters().concat_reference) {
        Ok(parts) => write_all(draft, destination, report, parts.as_slice()),
        Err(_) => Err(NoMemory),
    }
}

/// The owner writes a text, which was judged: it takes at most 20 parts, and numbers are left for them. And what follows every event.
pub(crate) fn write_and_follow(
    draft: &mut Draft<'_>,
    text: &str,
    destination: &Address,
    report: bool,
) -> Result<(), NoMemory>
    requires address { IsAddress destination.now }
    requires numbers { (parts : List PartOf) → split_of (content_of_text (chars text.now)) draft.old.rows.counters.concat_reference ≡ Ok parts
        → draft.old.rows.counters.entry + length parts ≤ 4294967295 }
    ensures { (parts : List PartOf) → split_of (content_of_text (chars text.now)) draft.old.rows.counters.concat_reference ≡ Ok parts
        → OnOk result (draft.new ≡ follow (written_of destination.now report parts draft.old)) }
{
    write(draft, text, destination, report)?;
    draft.follow()
}
