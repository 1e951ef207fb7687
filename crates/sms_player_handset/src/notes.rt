//! What is noted of an event: what was accepted and joined, and the references that were given.
ghost use Rattle.std.specs.Prelude.{◌≡◌, ◌++◌, ◌∷◌, [], if◌then◌else◌, is_some, not, OnOk};
ghost use Rattle.sms_handset_draft.specs.Outcome.{changes_in};
ghost use Rattle.sms_rows.specs.table.Table.{all_applied, row_at};
ghost use Rattle.sms_handset_rows.specs.outbox.Keys.{out_key};
ghost use Rattle.sms_play.specs.HandsetSide.{accepted_in, carried_given, coding_of as coding_of_units, data_given, entries_given, entry_given, joined_as};
ghost use Rattle.sms_play.specs.HandsetSide.{joined_in, memories_given, memory_given};
ghost use Rattle.sms_player_handset.specs.Noting.{accepted_of, each, entry_of, frame_of, joined_of};
ghost use Rattle.sms_script.specs.declared.report.rows.Direction.TheVariants.{Up as UpOf};

use sms_alphabet::Coding;
use sms_base::{Carried, Digits, Holder, Kind, Listed, Moment, Octets};
use sms_concat::Content;
use sms_handset::Changes;
use sms_handset_rows::inbox::{Entry, LastAccepted, Message};
use sms_handset_rows::outbox::OutEntry;
use sms_link::Outgoing;
use sms_rows::table::{Change, Row, Table};
use sms_script::report::{AcceptedRow, Direction, GivenRow, JoinedCoding, JoinedRow};
use std::alloc::{AllocError, Global};

/// What a handset accepted and joined, in order.
#[derive(Drop)]
pub(crate) struct History {
    pub accepted: Listed<AcceptedRow>,
    pub joined: Listed<JoinedRow>,
}

// ---- what was accepted

fn push_accepted(
    alloc: Global,
    handset: Digits,
    last: &LastAccepted,
    accepted: &mut Listed<AcceptedRow>,
) -> Result<(), AllocError>
    ensures { OnOk result (accepted.new ≡ accepted.old ++ record { handset = handset; reference = last.now.reference; tpdu = last.now.tpdu } ∷ []) }
{
    let tpdu = Octets::copy_of(alloc, last.tpdu.as_slice())?;
    accepted.push(AcceptedRow {
        handset,
        reference: last.reference,
        tpdu,
    })
}

fn note_last(
    alloc: Global,
    handset: Digits,
    change: &Change<LastAccepted>,
    accepted: &mut Listed<AcceptedRow>,
) -> Result<(), AllocError>
    ensures { OnOk result (accepted.new ≡ accepted.old ++ accepted_of handset change.now) }
{
    match change {
        Change::Put(last) => push_accepted(alloc, handset, last, accepted),
        Change::Remove(_) => Ok(()),
    }
}

fn note_accepted(
    alloc: Global,
    handset: Digits,
    changes: &[Change<LastAccepted>],
    accepted: &mut Listed<AcceptedRow>,
) -> Result<(), AllocError>
    ensures { OnOk result (accepted.new ≡ accepted.old ++ each (accepted_of handset) changes.now) }
{
    for change in changes {
        note_last(alloc, handset, change, accepted)?;
    }
    Ok(())
}

// ---- what was joined

fn coding_of(coding: Coding) -> JoinedCoding
    ensures { result ≡ coding_of_units coding }
{
    match coding {
        Coding::Septets => JoinedCoding::Septets,
        Coding::Octets => JoinedCoding::Octets,
        Coding::Ucs2 => JoinedCoding::Ucs2,
        Coding::Compressed => JoinedCoding::Octets,
    }
}

fn push_joined(
    alloc: Global,
    handset: Digits,
    from: Digits,
    content: &Content,
    joined: &mut Listed<JoinedRow>,
) -> Result<(), AllocError>
    ensures { OnOk result (joined.new ≡ joined.old ++ record {
      handset = handset;
      from = from;
      coding = coding_of_units content.now.coding;
      units = content.now.units;
    } ∷ []) }
{
    let units = Octets::copy_of(alloc, content.units.as_slice())?;
    joined.push(JoinedRow {
        handset,
        from,
        coding: coding_of(content.coding),
        units,
    })
}

fn note_message(
    alloc: Global,
    handset: Digits,
    message: &Message,
    joined: &mut Listed<JoinedRow>,
) -> Result<(), AllocError>
    ensures { OnOk result (joined.new ≡ joined.old ++ joined_as handset message.now) }
{
    match message {
        Message::Single { .. } => Ok(()),
        Message::Part { .. } => Ok(()),
        Message::Joined { source, content } => {
            push_joined(alloc, handset, source.digits, content, joined)
        }
    }
}

fn note_entry(
    alloc: Global,
    handset: Digits,
    change: &Change<Entry>,
    joined: &mut Listed<JoinedRow>,
) -> Result<(), AllocError>
    ensures { OnOk result (joined.new ≡ joined.old ++ joined_of handset change.now) }
{
    match change {
        Change::Put(entry) => note_message(alloc, handset, &entry.message, joined),
        Change::Remove(_) => Ok(()),
    }
}

fn note_joined(
    alloc: Global,
    handset: Digits,
    changes: &[Change<Entry>],
    joined: &mut Listed<JoinedRow>,
) -> Result<(), AllocError>
    ensures { OnOk result (joined.new ≡ joined.old ++ each (joined_of handset) changes.now) }
{
    for change in changes {
        note_entry(alloc, handset, change, joined)?;
    }
    Ok(())
}

/// What the changes put into the list of what was accepted last, and the joined entries that they put.
#[tactic(auto, using(crate::proofs::Noted::accepted_each, crate::proofs::Noted::joined_each))]
pub(crate) fn note_history(
    alloc: Global,
    handset: Digits,
    changes: &Changes,
    history: &mut History,
) -> Result<(), AllocError>
    ensures accepted { OnOk result (history.new.accepted ≡ history.old.accepted ++ accepted_in handset (changes_in changes.now).last) }
    ensures joined { OnOk result (history.new.joined ≡ history.old.joined ++ joined_in handset (changes_in changes.now).entries) }
{
    note_accepted(
        alloc,
        handset,
        changes.last.changes(),
        &mut history.accepted,
    )?;
    note_joined(
        alloc,
        handset,
        changes.entries.changes(),
        &mut history.joined,
    )
}

// ---- what was given

fn push_given(
    handset: Digits,
    moment: Moment,
    reference: u8,
    holder: Holder,
    given: &mut Listed<GivenRow>,
) -> Result<(), AllocError>
    ensures { OnOk result (given.new ≡ given.old ++ record {
      handset = handset;
      direction = UpOf;
      reference = reference;
      holder = holder;
      moment = moment;
    } ∷ []) }
{
    given.push(GivenRow {
        handset,
        direction: Direction::Up,
        reference,
        holder,
        moment,
    })
}

fn is_new(outbox: &Table<OutEntry>, before: &[Change<OutEntry>], entry: &OutEntry) -> bool
    ensures { result ≡ not (is_some (row_at out_key entry.now.number (all_applied out_key before.now outbox.now.rows))) }
{
    outbox.find_after(before, entry.key()).is_none()
}

fn note_put(
    handset: Digits,
    moment: Moment,
    is_new: bool,
    entry: &OutEntry,
    given: &mut Listed<GivenRow>,
) -> Result<(), AllocError>
    ensures { OnOk result (given.new ≡ given.old ++ (if is_new then entry_given handset moment entry.now else [])) }
{
    if is_new {
        let holder = Holder::Entry(entry.number);
        push_given(handset, moment, entry.reference, holder, given)
    } else {
        Ok(())
    }
}

fn note_out(
    handset: Digits,
    moment: Moment,
    outbox: &Table<OutEntry>,
    before: &[Change<OutEntry>],
    change: &Change<OutEntry>,
    given: &mut Listed<GivenRow>,
) -> Result<(), AllocError>
    ensures { OnOk result (given.new ≡ given.old ++ entry_of handset moment (all_applied out_key before.now outbox.now.rows) change.now) }
{
    match change {
        Change::Put(entry) => {
            note_put(handset, moment, is_new(outbox, before, entry), entry, given)
        }
        Change::Remove(_) => Ok(()),
    }
}

/// The references of the new entries of the outbox.
pub(crate) fn note_entries(
    handset: Digits,
    moment: Moment,
    outbox: &Table<OutEntry>,
    changes: &[Change<OutEntry>],
    given: &mut Listed<GivenRow>,
) -> Result<(), AllocError>
    ensures { OnOk result (given.new ≡ given.old ++ entries_given handset moment outbox.now.rows changes.now) }
{
    for place in 0..changes.len() {
        note_out(
            handset,
            moment,
            outbox,
            &changes[..place],
            &changes[place],
            given,
        )?;
    }
    Ok(())
}

fn note_memory(
    handset: Digits,
    moment: Moment,
    next: u32,
    reference: u8,
    tag: Holder,
    given: &mut Listed<GivenRow>,
) -> Result<(), AllocError>
    ensures { OnOk result (given.new ≡ given.old ++ memory_given handset moment next reference tag) }
{
    match tag {
        Holder::Part(_, _) => Ok(()),
        Holder::Report(_) => Ok(()),
        Holder::Entry(_) => Ok(()),
        Holder::Memory(number) => {
            if next <= number {
                push_given(handset, moment, reference, tag, given)
            } else {
                Ok(())
            }
        }
    }
}

fn note_data(
    handset: Digits,
    moment: Moment,
    next: u32,
    carried: &Carried,
    given: &mut Listed<GivenRow>,
) -> Result<(), AllocError>
    ensures { OnOk result (given.new ≡ given.old ++ data_given handset moment next carried.now.reference carried.now.tag carried.now.kind) }
{
    match carried.kind {
        Kind::Data => note_memory(handset, moment, next, carried.reference, carried.tag, given),
        Kind::Ack => Ok(()),
        Kind::Error => Ok(()),
    }
}

fn note_carried(
    handset: Digits,
    moment: Moment,
    next: u32,
    carried: Option<Carried>,
    given: &mut Listed<GivenRow>,
) -> Result<(), AllocError>
    ensures { OnOk result (given.new ≡ given.old ++ carried_given handset moment next carried) }
{
    match carried {
        None => Ok(()),
        Some(carried) => note_data(handset, moment, next, &carried, given),
    }
}

fn note_frame(
    handset: Digits,
    moment: Moment,
    next: u32,
    frame: &Outgoing,
    given: &mut Listed<GivenRow>,
) -> Result<(), AllocError>
    ensures { OnOk result (given.new ≡ given.old ++ frame_of handset moment next frame.now) }
{
    if frame.is_copy {
        return Ok(());
    }
    note_carried(handset, moment, next, frame.carried, given)
}

/// The references of the RP-SMMA that are sent for the first time, those of numbers from the next on.
pub(crate) fn note_memories(
    handset: Digits,
    moment: Moment,
    next: u32,
    frames: &[Outgoing],
    given: &mut Listed<GivenRow>,
) -> Result<(), AllocError>
    ensures { OnOk result (given.new ≡ given.old ++ memories_given handset moment next frames.now) }
{
    for frame in frames {
        note_frame(handset, moment, next, frame, given)?;
    }
    Ok(())
}
