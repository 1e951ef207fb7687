//! What handsets in play report in the end.
ghost use Rattle.std.specs.Prelude.{◌≡◌, ◌++◌, IfOk, OnOk};
ghost use Rattle.sms_play.specs.Playing.{all_outbox_lines, entry_state as entry_state_of, joined_lines as joined_lines_of, outbox_lines as outbox_lines_of};

use crate::played::PlayedHandset;
use sms_base::{Digits, Listed, Octets};
use sms_handset_rows::outbox::{EntryState as OwnState, OutEntry};
use sms_script::report::{EntryState, JoinedRow, OutboxRow};
use std::alloc::{AllocError, Global};

fn copy_joined(
    alloc: Global,
    rows: &[JoinedRow],
    lines: &mut Listed<JoinedRow>,
) -> Result<(), AllocError>
    ensures { OnOk result (lines.new ≡ lines.old ++ rows.now) }
{
    for row in rows {
        let units = Octets::copy_of(alloc, row.units.as_slice())?;
        lines.push(JoinedRow {
            handset: row.handset,
            from: row.from,
            coding: row.coding,
            units,
        })?;
    }
    Ok(())
}

/// What the handsets joined, by handset.
pub fn joined_lines(
    alloc: Global,
    parties: &[PlayedHandset],
) -> Result<Listed<JoinedRow>, AllocError>
    ensures { IfOk result (λ lines. lines ≡ joined_lines_of parties.now) }
{
    let mut lines = Listed::new(alloc);
    for party in parties {
        copy_joined(alloc, party.joined(), &mut lines)?;
    }
    Ok(lines)
}

fn entry_state(state: OwnState) -> EntryState
    ensures { result ≡ entry_state_of state }
{
    match state {
        OwnState::Queued => EntryState::Queued,
        OwnState::Sending => EntryState::Sending,
        OwnState::Sent => EntryState::Sent,
        OwnState::Failed => EntryState::Failed,
        OwnState::Unsure => EntryState::Unsure,
    }
}

fn put_outbox(
    handset: Digits,
    outbox: &[OutEntry],
    lines: &mut Listed<OutboxRow>,
) -> Result<(), AllocError>
    ensures { OnOk result (lines.new ≡ lines.old ++ outbox_lines_of handset outbox.now) }
{
    for entry in outbox {
        lines.push(OutboxRow {
            handset,
            entry: entry.number,
            state: entry_state(entry.state),
        })?;
    }
    Ok(())
}

/// The entries of their outboxes, by handset.
pub fn outbox_lines(
    alloc: Global,
    parties: &[PlayedHandset],
) -> Result<Listed<OutboxRow>, AllocError>
    ensures { IfOk result (λ lines. lines ≡ all_outbox_lines parties.now) }
{
    let mut lines = Listed::new(alloc);
    for party in parties {
        put_outbox(party.number().digits(), party.outbox(), &mut lines)?;
    }
    Ok(lines)
}
