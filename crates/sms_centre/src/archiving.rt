//! Archives of what a centre forgets.
ghost use Rattle.std.specs.Prelude.{◌≡◌, ℕ, Some, OnOk};
ghost use Rattle.sms_centre_rows.specs.declared.messages.message.MessageRow.{MessageRow as MessageRowOf};
ghost use Rattle.sms_centre_rows.specs.messages.Messages.{message_at};
ghost use Rattle.sms_centre_spec.specs.Draft.{Core};
ghost use Rattle.sms_centre.specs.Archiving.{AreArchived, Stays, parts_in};
ghost use Rattle.sms_centre.specs.state.CentreState.{Represents as StateRepresents};

use crate::forget_error::ForgetError;
use crate::state::CentreState;
use sms_base::MessageId;
use sms_centre_rows::messages::MessageRow as Message;
use std::alloc::Global;

/// An archive refused a message.
#[derive(Clone, Copy, PartialEq, Eq)]
pub struct NotArchived;

/// An archive of the messages that a centre forgets.
pub trait Archive {
    /// The archive has taken the message, with so many parts.
    ghost took: { Self → MessageRowOf → ℕ → Type 0 };

    /// The archive has the message still after a stop.
    ghost keeps: { Self → MessageRowOf → ℕ → Type 0 };

    /// Takes a message with so many parts.
    fn take(&mut self, message: &Message, parts: usize) -> Result<(), NotArchived>
        ensures took { OnOk result (took self.new message.now parts) }
        ensures others { Stays (took self.old) (took self.new) }
        ensures kept { Stays (keeps self.old) (keeps self.new) };

    /// Writes what it has taken to where it outlasts a stop.
    fn sync(&mut self) -> Result<(), NotArchived>
        ensures synced { OnOk result (Stays (took self.old) (keeps self.new)) }
        ensures kept { Stays (keeps self.old) (keeps self.new) };
}

/// No archive: what is forgotten is gone.
#[derive(Clone, Copy, PartialEq, Eq)]
pub struct NoArchive;

impl Archive for NoArchive {
    ghost use Rattle.std.specs.Prelude.{⊤};

    ghost took = { λ archive message parts. ⊤ };

    ghost keeps = { λ archive message parts. ⊤ };

    fn take(&mut self, _message: &Message, _parts: usize) -> Result<(), NotArchived> {
        Ok(())
    }

    fn sync(&mut self) -> Result<(), NotArchived> {
        Ok(())
    }
}

fn take_found<A: Archive>(
    archive: &mut A,
    message: Message,
    parts: usize,
) -> Result<(), ForgetError>
    ensures took { OnOk result (A.took archive.new message parts) }
    ensures others { Stays (A.took archive.old) (A.took archive.new) }
    ensures kept { Stays (A.keeps archive.old) (A.keeps archive.new) }
{
    let taken = archive.take(&message, parts);
    drop(message);
    match taken {
        Ok(()) => Ok(()),
        Err(_) => Err(ForgetError::NotArchived),
    }
}

// The archive takes the message of that number.
fn take<A: Archive>(
    alloc: Global,
    state: &CentreState,
    archive: &mut A,
    id: MessageId,
) -> Result<(), ForgetError>
    ensures took { (c : Core) (m : MessageRowOf) → StateRepresents c state.now → message_at id c.rows.messages ≡ Some m
        → OnOk result (A.took archive.new m (parts_in c.rows id)) }
    ensures others { Stays (A.took archive.old) (A.took archive.new) }
    ensures kept { Stays (A.keeps archive.old) (A.keeps archive.new) }
{
    let found = state.messages.find(alloc, id)?;
    let parts = state.messages.count_parts(id);
    match found {
        Some(message) => take_found(archive, message, parts),
        None => Ok(()),
    }
}

fn take_each<A: Archive>(
    alloc: Global,
    state: &CentreState,
    archive: &mut A,
    ids: &[MessageId],
) -> Result<(), ForgetError>
    ensures took { (c : Core) → StateRepresents c state.now → OnOk result (AreArchived (A.took archive.new) ids.now c.rows) }
    ensures kept { Stays (A.keeps archive.old) (A.keeps archive.new) }
{
    for id in ids {
        take(alloc, state, archive, *id)?;
    }
    Ok(())
}

/// The archive takes the messages of these numbers, and keeps them.
pub(crate) fn archive_all<A: Archive>(
    alloc: Global,
    state: &CentreState,
    archive: &mut A,
    ids: &[MessageId],
) -> Result<(), ForgetError>
    ensures archived { (c : Core) → StateRepresents c state.now → OnOk result (AreArchived (A.keeps archive.new) ids.now c.rows) }
    ensures kept { Stays (A.keeps archive.old) (A.keeps archive.new) }
{
    if ids.is_empty() {
        return Ok(());
    }
    take_each(alloc, state, archive, ids)?;
    match archive.sync() {
        Ok(()) => Ok(()),
        Err(_) => Err(ForgetError::NotArchived),
    }
}
