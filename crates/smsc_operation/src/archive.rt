//! The file to which a run writes what it forgets: a line of JSON a message, and never a text.
ghost use Rattle.std.specs.Prelude.{◌≡◌, ℕ, List, IfErr, IfOk, OnOk, is_some, true};
ghost use Rattle.smsc_status.specs.Archive.{archive_text};
ghost use Rattle.smsc_operation.specs.Archiving.{HasLine, IsSoOfLine, ledger_in, said_of};

use crate::ledger::{Ledger, LineFile};
use sms_base::{FinalState, Moment, Octets};
use sms_centre::{Archive, NotArchived};
use sms_centre_rows::messages::MessageRow;
use smsc_status::{ArchiveLine, archive_line};
use std::alloc::{AllocError, Global};
use std::io;

/// Where a run writes what it forgets, if anywhere.
#[derive(Drop)]
pub struct RunArchive<F: Ledger + Drop> {
    alloc: Global,
    pub(crate) ledger: Option<F>,
}

// ---- a line

fn line_of(
    alloc: Global,
    message: &MessageRow,
    parts: usize,
    ended: Moment,
    state: FinalState,
) -> Result<Octets, AllocError>
    ensures { IfOk result (λ line. line ≡ archive_text (said_of message.now parts ended state)) }
{
    let destination = message.handset.digits();
    archive_line(
        alloc,
        &ArchiveLine {
            id: message.id,
            originator: &message.originator,
            source: message.source.digits.as_slice(),
            destination: destination.as_slice(),
            submitted: message.submitted,
            ended,
            parts: parts as u64,
            state,
            wish: message.wish,
        },
    )
}

// ---- the archive

// The ledger takes the line, if there is one.
fn append_to<F: Ledger>(ledger: &mut Option<F>, line: &[u8]) -> Result<(), NotArchived>
    ensures taken { OnOk result (HasLine F.has ledger.new line.now) }
    ensures others { (other : List ℕ) → HasLine F.has ledger.old other → HasLine F.has ledger.new other }
    ensures kept { (other : List ℕ) → HasLine F.keeps ledger.old other → HasLine F.keeps ledger.new other }
{
    match ledger {
        Some(ledger) => ledger.append(line).map_err(|_| NotArchived),
        None => Ok(()),
    }
}

fn sync_in<F: Ledger>(ledger: &mut Option<F>) -> Result<(), NotArchived>
    ensures synced { OnOk result ((line : List ℕ) → HasLine F.has ledger.old line → HasLine F.keeps ledger.new line) }
    ensures kept { (line : List ℕ) → HasLine F.keeps ledger.old line → HasLine F.keeps ledger.new line }
{
    match ledger {
        Some(ledger) => ledger.sync().map_err(|_| NotArchived),
        None => Ok(()),
    }
}

fn opened(rt: &HostRuntime, path: Option<&str>) -> io::Result<Option<LineFile>>
    ensures opened { IfOk result (λ ledger. is_some ledger ≡ is_some path.entry) }
    ensures refused { IfErr result (λ _. is_some path.entry ≡ true) }
{
    match path {
        Some(path) => {
            let file = LineFile::open(rt, path)?;
            Ok(Some(file))
        }
        None => Ok(None),
    }
}

impl RunArchive<LineFile> {
    /// The archive at the path, which is made where it is missing. What is there stays. Without a path it writes nowhere.
    ///
    /// # Errors
    /// The file at the path could not be opened.
    pub fn open(rt: &HostRuntime, path: Option<&str>) -> io::Result<RunArchive<LineFile>>
        ensures ledger { IfOk result (λ archive. is_some (ledger_in archive) ≡ is_some path.entry) }
        ensures refused { IfErr result (λ _. is_some path.entry ≡ true) }
    {
        Ok(RunArchive {
            alloc: rt.alloc(),
            ledger: opened(rt, path)?,
        })
    }
}

impl<F: Ledger + Drop> RunArchive<F> {
    fn put(
        &mut self,
        message: &MessageRow,
        parts: usize,
        ended: Moment,
        state: FinalState,
    ) -> Result<(), NotArchived>
        ensures taken { OnOk result (HasLine F.has self.new.ledger (archive_text (said_of message.now parts ended state))) }
        ensures others { (other : List ℕ) → HasLine F.has self.old.ledger other → HasLine F.has self.new.ledger other }
        ensures kept { (other : List ℕ) → HasLine F.keeps self.old.ledger other → HasLine F.keeps self.new.ledger other }
    {
        match line_of(self.alloc, message, parts, ended, state) {
            Ok(line) => append_to(&mut self.ledger, line.as_slice()),
            Err(_) => Err(NotArchived),
        }
    }
}

/// It refuses a message that has not ended.
impl<F: Ledger + Drop> Archive for RunArchive<F> {
    ghost took = { λ archive message parts. IsSoOfLine (HasLine F.has archive.ledger) message parts };

    ghost keeps = { λ archive message parts. IsSoOfLine (HasLine F.keeps archive.ledger) message parts };

    #[tactic(auto, using(crate::proofs::Archived::so_now, crate::proofs::Archived::so_still))]
    fn take(&mut self, message: &MessageRow, parts: usize) -> Result<(), NotArchived> {
        match (message.done, message.state) {
            (Some(ended), Some(state)) => self.put(message, parts, ended, state),
            _ => Err(NotArchived),
        }
    }

    #[tactic(auto, using(crate::proofs::Archived::so_still))]
    fn sync(&mut self) -> Result<(), NotArchived> {
        sync_in(&mut self.ledger)
    }
}
