//! What a run writes into the two files before it opens the database in them, and once it has ended in order.
ghost use Rattle.std.specs.Prelude.{◌≡◌, ◌≤◌, ◌+◌, ℕ, [], IfOk, IsTrue, OnOk, length};
ghost use Rattle.sqlite_disk.specs.Disk.{Only};
ghost use Rattle.sqlite_wal.specs.Format.{be32};
ghost use Rattle.sqlite_wal.specs.Files.{outcomes, seen_image};
ghost use Rattle.sqlite_wal.specs.Log.{AreUsable, files, image, state};
ghost use Rattle.sqlite_wal.specs.PageSize.{IsPageSize, bytes_of};
ghost use Rattle.sqlite_wal.specs.Reads.{AreClean, IsClean};
ghost use Rattle.sqlite_wal.specs.Recovery.{AddsNothing};
ghost use Rattle.sms_store_files.specs.Reading.{mark_in};
ghost use Rattle.sms_store_files.specs.Writing.{IsMarked, IsWrittenBack, NamesSize};

use crate::marking::{Mark, number_of};
use crate::reading::{APPLICATION, APPLICATION_AT, FilesFault, MARK};
use sqlite_disk::{Disk, Files};
use sqlite_wal::{Log, PageSize, probe_page_size};
use std::alloc::Global;

// The four octets of a number, the highest first.
fn octets_of(number: u32) -> [u8; 4]
    ensures { be32 result 0 ≡ number }
{
    [
        (number / 0x100_0000) as u8,
        (number / 0x1_0000 % 0x100) as u8,
        (number / 0x100 % 0x100) as u8,
        (number % 0x100) as u8,
    ]
}

// Writes what the log holds into the database file, and cuts the log to its head.
fn emptied<D: Disk + Drop>(log: Log<D>) -> Result<Files<D>, FilesFault>
    requires { AreUsable log }
    ensures usable { IfOk result (λ back. IsTrue (D.Disk.is_usable back.log) × IsTrue (D.Disk.is_usable back.db)) }
    ensures whole { IfOk result (λ back. AreClean D.Disk back.log back.db
        → IsWrittenBack (state log).page_size (image log) (seen_image D.Disk back.log back.db)) }
    ensures crash { IfOk result (λ back. AreClean D.Disk back.log back.db
        → AddsNothing (state log).page_size (outcomes D.Disk (files log).0 (files log).1) (outcomes D.Disk back.log back.db)) }
    ensures honest { IfOk result (λ back. AreClean D.Disk back.log back.db → AreClean D.Disk (files log).0 (files log).1) }
{
    let mut log = log;
    log.recover()?;
    log.finish()?;
    Ok(log.into_files())
}

fn written_back<D: Disk + Drop>(
    alloc: Global,
    files: Files<D>,
    size: PageSize,
    seed: u64,
) -> Result<Files<D>, FilesFault>
    requires log { IsTrue (D.Disk.is_usable files.log) }
    requires db { IsTrue (D.Disk.is_usable files.db) }
    ensures usable { IfOk result (λ back. IsTrue (D.Disk.is_usable back.log) × IsTrue (D.Disk.is_usable back.db)) }
    ensures whole { IfOk result (λ back. AreClean D.Disk back.log back.db
        → IsWrittenBack (bytes_of size) (seen_image D.Disk files.log files.db) (seen_image D.Disk back.log back.db)) }
    ensures crash { IfOk result (λ back. AreClean D.Disk back.log back.db
        → AddsNothing (bytes_of size) (outcomes D.Disk files.log files.db) (outcomes D.Disk back.log back.db)) }
    ensures honest { IfOk result (λ back. AreClean D.Disk back.log back.db → AreClean D.Disk files.log files.db) }
{
    match Log::new(alloc, files, size, seed) {
        Ok(log) => emptied(log),
        Err(refused) => {
            drop(refused);
            Err(FilesFault::NoMemory)
        }
    }
}

/// Writes what the log holds into the database file, which is the whole store then, and cuts the log to its head. Files that name no
/// size of a page are left as they are: they are no database yet.
pub fn write_back<D: Disk + Drop>(
    alloc: Global,
    files: Files<D>,
    seed: u64,
) -> Result<Files<D>, FilesFault>
    ensures usable { IfOk result (λ back. IsTrue (D.Disk.is_usable back.log) × IsTrue (D.Disk.is_usable back.db)) }
    ensures whole { IfOk result (λ back. AreClean D.Disk back.log back.db → (size : ℕ) → IsPageSize size
        → NamesSize (seen_image D.Disk files.log files.db) size
        → IsWrittenBack size (seen_image D.Disk files.log files.db) (seen_image D.Disk back.log back.db)) }
    ensures left { IfOk result (λ back. AreClean D.Disk back.log back.db → (size : ℕ) → ¬ IsPageSize size
        → NamesSize (seen_image D.Disk files.log files.db) size
        → seen_image D.Disk back.log back.db ≡ seen_image D.Disk files.log files.db) }
    ensures crash { IfOk result (λ back. AreClean D.Disk back.log back.db → (size : ℕ)
        → NamesSize (seen_image D.Disk files.log files.db) size
        → AddsNothing size (outcomes D.Disk files.log files.db) (outcomes D.Disk back.log back.db)) }
    ensures honest { IfOk result (λ back. AreClean D.Disk back.log back.db → AreClean D.Disk files.log files.db) }
{
    let mut files = files;
    if !files.may_be_used() {
        drop(files);
        return Err(FilesFault::Refused);
    }
    match probe_page_size(&mut files)? {
        Some(size) => written_back(alloc, files, size, seed),
        None => Ok(files),
    }
}

/// Empties a log that is another file's.
pub fn drop_log<D: Disk + Drop>(files: &mut Files<D>) -> Result<(), FilesFault>
    ensures empty { OnOk result (IsClean D.Disk files.new.log → (length (D.Disk.seen files.new.log) ≡ 0)
        × Only (D.Disk.seen files.new.log) (D.Disk.may_leave files.new.log)) }
    ensures db { files.new.db ≡ files.old.db }
    ensures usable { OnOk result (IsTrue (D.Disk.is_usable files.new.log)) }
{
    if !files.log.may_be_used() {
        return Err(FilesFault::Refused);
    }
    files.log.set_len(0)?;
    files.log.sync()?;
    Ok(())
}

/// Writes the mark into the database file, and waits until the disk has it. No connection may have the files: it would not see the mark.
#[tactic(auto, using(crate::proofs::Marked::marked))]
pub fn write_mark<D: Disk + Drop>(files: &mut Files<D>, mark: Mark) -> Result<(), FilesFault>
    ensures marked { OnOk result (IsClean D.Disk files.new.db → IsMarked mark (D.Disk.seen files.old.db) (D.Disk.seen files.new.db)) }
    ensures durable { OnOk result (Only (D.Disk.seen files.new.db) (D.Disk.may_leave files.new.db)) }
    ensures log { files.new.log ≡ files.old.log }
    ensures usable { OnOk result (IsTrue (D.Disk.is_usable files.new.db)) }
{
    let Some(number) = number_of(mark) else {
        return Err(FilesFault::NoDatabase);
    };
    if !files.db.may_be_used() {
        return Err(FilesFault::Refused);
    }
    files.db.write_at(APPLICATION_AT, &octets_of(APPLICATION))?;
    files.db.write_at(MARK, &octets_of(number))?;
    files.db.sync()?;
    Ok(())
}
