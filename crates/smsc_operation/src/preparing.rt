//! How both files of a store are made ready before a run opens the database in them, and left once it has ended in order.
//!
//! FILE has a mark whether a run has it open. It is written while nobody has the database open, and the disk has it before the first
//! commit of a run.
ghost use Rattle.std.specs.Prelude.{◌≡◌, Err, IfOk, OnOk};
ghost use Rattle.sms_centre_recovery.specs.soundness.RowsOf.{rows_of};
ghost use Rattle.sms_centre_spec.specs.SoundRows.{IsSound};
ghost use Rattle.smsc_operation.specs.declared.run_fault.RunFault.TheVariants.{BadRows};

use crate::moments::text_of;
use crate::opening::{FoundStore, connect, database_fault, keep_of, open_files, seed_of};
use crate::run_fault::{RunFault, StoreFault, lost_fault};
use crate::store_files::{StorePaths, look_at, write_private};
use sms_base::{Listed, MessageId, Moment};
use sms_centre_recovery::soundness::RowTables;
use sms_centre_spec::bodies::CentreStore;
use sms_centre_spec::numbers::step_after_loss;
use sms_centre_spec::{Rows, Setup};
use sms_store::CentreKeep;
use sms_store_files::{
    FilesFault, FilesFinding, Mark, StartVerdict, are_still, drop_log, finding_of, mark_at,
    octets_of, verdict_of, write_back, write_mark,
};
use smsc_cli::words::ServerRun;
use sqlite::{File, FileStore, Files};
use std::alloc::Global;

// No mark has a greater step.
const MOST_STEPS: u32 = 2_000_000_000;

/// How a run found its store.
#[derive(Clone, Copy)]
pub struct Begun {
    /// The numbers of the run begin behind so many steps.
    pub step: u32,
    /// What the files said.
    pub finding: FilesFinding,
}

impl Begun {
    /// How the run before it ended.
    pub fn last_run(&self) -> &'static str {
        match self.finding.mark {
            Mark::Unmarked => "unknown",
            Mark::Closed(_) => "in_order",
            Mark::Open(_) => "cut_off",
        }
    }

    /// Whether it ended in order.
    pub fn is_of_order(&self) -> bool {
        matches!(self.finding.mark, Mark::Closed(_))
    }
}

fn files_fault(fault: FilesFault) -> StoreFault {
    match fault {
        FilesFault::NoMemory | FilesFault::Refused => StoreFault::Other,
        FilesFault::Full => StoreFault::Full,
        FilesFault::NoDatabase => StoreFault::NoDatabase,
    }
}

/// Why a run, or a copy, can't have what the files gave.
pub(crate) fn run_fault(fault: FilesFault) -> RunFault {
    match fault {
        FilesFault::NoMemory => RunFault::NoMemory,
        fault => RunFault::Store(files_fault(fault)),
    }
}

// ---- what both files say

// Why a run may not start over the files.
fn refusal_of(found: &FilesFinding) -> Option<StoreFault> {
    match verdict_of(found.mark, found.log.finding) {
        StartVerdict::Taken | StartVerdict::TakenTorn => None,
        StartVerdict::NoLog => Some(StoreFault::NoLog),
        StartVerdict::HasNoHead => Some(StoreFault::NoHead),
        StartVerdict::OtherFiles => Some(StoreFault::OtherLog),
        StartVerdict::IsDamaged => Some(StoreFault::DamagedLog(found.log.taken, found.log.behind)),
    }
}

fn copy_octets(rt: &HostRuntime, path: &str, octets: Vec<u8>) -> Result<(), RunFault> {
    match write_private(rt, path, octets.as_slice()) {
        Ok(()) => Ok(()),
        Err(error) => Err(RunFault::Copy(error)),
    }
}

fn name_of(
    alloc: Global,
    paths: &StorePaths,
    moment: Moment,
    end: &str,
) -> Result<String, RunFault> {
    let moment = text_of(alloc, moment)?;
    let file = paths.file.as_str();
    format!(in alloc; "{file}.{moment}{end}").map_err(|_| RunFault::NoMemory)
}

fn keep_log(
    rt: &HostRuntime,
    paths: &StorePaths,
    files: &mut Files<File>,
    moment: Moment,
) -> Result<(), RunFault> {
    let log = octets_of(rt.alloc(), &mut files.log).map_err(run_fault)?;
    let name = name_of(rt.alloc(), paths, moment, "-wal")?;
    copy_octets(rt, name.as_str(), log)
}

/// Keeps a copy of a log whose file is missing, under the moment of the start, and empties the log.
pub(crate) fn set_log_aside(
    rt: &HostRuntime,
    paths: &StorePaths,
    files: &mut Files<File>,
    moment: Moment,
) -> Result<(), RunFault> {
    keep_log(rt, paths, files, moment)?;
    drop_log(files).map_err(run_fault)
}

// Keeps copies of both files beside them.
fn keep_copies(
    rt: &HostRuntime,
    paths: &StorePaths,
    files: &mut Files<File>,
    moment: Moment,
) -> Result<(), RunFault> {
    keep_log(rt, paths, files, moment)?;
    let file = octets_of(rt.alloc(), &mut files.db).map_err(run_fault)?;
    let name = name_of(rt.alloc(), paths, moment, "")?;
    copy_octets(rt, name.as_str(), file)
}

// A log that is not this file's holds nothing of it.
fn drop_other_log(files: &mut Files<File>, refusal: StoreFault) -> Result<(), RunFault> {
    match refusal {
        StoreFault::OtherLog => drop_log(files).map_err(run_fault),
        _ => Ok(()),
    }
}

// Refuses files that a run may not start over. Where the words give up what was lost, copies of both are kept first.
fn judge(
    rt: &HostRuntime,
    run: &ServerRun<'_>,
    paths: &StorePaths,
    files: &mut Files<File>,
    found: &FilesFinding,
    start: Moment,
) -> Result<(), RunFault> {
    match refusal_of(found) {
        None => Ok(()),
        Some(refusal) if run.accepts_loss => {
            keep_copies(rt, paths, files, start)?;
            drop_other_log(files, refusal)
        }
        Some(refusal) => Err(RunFault::Store(refusal)),
    }
}

// ---- the mark

fn bare_setup(alloc: Global, run: &ServerRun<'_>, start: Moment) -> Setup {
    Setup {
        centre: run.centre,
        start,
        first: 1,
        accounts: Listed::from_vec(Vec::new(alloc)),
    }
}

fn judge_tables(alloc: Global, tables: &RowTables) -> Result<(), RunFault>
    ensures sound { OnOk result (IsSound (rows_of tables.now)) }
    ensures refused { result ≡ Err BadRows → ¬ IsSound (rows_of tables.now) }
{
    match tables.is_sound(alloc) {
        Ok(true) => Ok(()),
        Ok(false) => Err(RunFault::BadRows),
        Err(_) => Err(RunFault::NoMemory),
    }
}

// Moved apart where no value is dropped.
fn rows_in(tables: RowTables) -> Rows
    ensures { result ≡ rows_of tables }
{
    Rows {
        messages: Listed::from_vec(tables.messages.into_vec()),
        parts: Listed::from_vec(tables.parts.into_vec()),
        references: Listed::from_vec(tables.references.into_vec()),
        handsets: Listed::from_vec(tables.handsets.into_vec()),
        reports: Listed::from_vec(tables.reports.into_vec()),
        priorities: Listed::from_vec(tables.priorities.into_vec()),
        bars: Listed::from_vec(tables.bars.into_vec()),
        setup: tables.setup,
    }
}

/// The rows, where a centre starts on them.
pub(crate) fn judged(alloc: Global, rows: Rows) -> Result<Rows, RunFault>
    ensures same { IfOk result (λ judged. judged ≡ rows) }
    ensures sound { OnOk result (IsSound rows) }
    ensures refused { result ≡ Err BadRows → ¬ IsSound rows }
{
    let Some(tables) = RowTables::of(rows) else {
        return Err(RunFault::BadRows);
    };
    match judge_tables(alloc, &tables) {
        Ok(()) => Ok(rows_in(tables)),
        Err(fault) => {
            drop(tables);
            Err(fault)
        }
    }
}

// The greatest number of the keep's rows, which are judged.
fn greatest_in<K: CentreStore>(alloc: Global, keep: &mut K) -> Result<Option<MessageId>, RunFault> {
    let rows = judged(alloc, keep.gather()?)?;
    let greatest = rows.messages.as_slice().last().map(|message| message.id);
    drop(rows);
    Ok(greatest)
}

// What the log holds is written into FILE.
fn close_keep(
    rt: &HostRuntime,
    path: &str,
    keep: CentreKeep<FileStore<File>>,
) -> Result<Files<File>, RunFault> {
    match keep.close() {
        Ok(files) => Ok(files),
        Err((error, store)) => {
            drop(store.close());
            Err(database_fault(rt, path, error))
        }
    }
}

// Opens the database in both files, looks for its greatest number, and closes it. What is no store of a centre, or has rows on which none
// starts, is refused and stays as it is; what is none yet becomes one.
fn look_through(
    rt: &HostRuntime,
    path: &str,
    files: Files<File>,
    setup: Setup,
) -> Result<(Files<File>, Option<MessageId>), RunFault> {
    let conn = connect(rt, path, files)?;
    let mut keep = keep_of(rt, path, conn, setup)?;
    match greatest_in(rt.alloc(), &mut keep) {
        Ok(greatest) => Ok((close_keep(rt, path, keep)?, greatest)),
        Err(fault) => {
            drop(keep);
            Err(fault)
        }
    }
}

// The steps of a run after one that did not end in order, or of which nothing is known. A store without messages has lost none.
fn step_behind(mark: Mark, greatest: Option<MessageId>) -> Result<u32, RunFault> {
    match (mark, greatest) {
        (Mark::Unmarked, None) => Ok(0),
        (Mark::Unmarked, Some(_)) => Ok(step_after_loss(0, greatest)),
        (Mark::Open(step), _) if step < MOST_STEPS => { Ok(step_after_loss(step, greatest)) }
        _ => Err(RunFault::Store(StoreFault::Damaged)),
    }
}

fn marked(rt: &HostRuntime, files: Files<File>, step: u32) -> Result<(Files<File>, u32), RunFault> {
    let mut files = files;
    match write_mark(&mut files, Mark::Open(step)) {
        Ok(()) => Ok((files, step)),
        Err(fault) => {
            drop(files);
            Err(run_fault(fault))
        }
    }
}

// The files with all that the log holds in FILE, and the step behind which the numbers of the run begin. After a run that ended in order
// that is the one before.
fn stepped(
    rt: &HostRuntime,
    run: &ServerRun<'_>,
    path: &str,
    files: Files<File>,
    mark: Mark,
    start: Moment,
) -> Result<(Files<File>, u32), RunFault> {
    if let Mark::Closed(step) = mark {
        let seed = seed_of(rt)?;
        return match write_back(rt.alloc(), files, seed) {
            Ok(files) => Ok((files, step)),
            Err(fault) => Err(run_fault(fault)),
        };
    }
    let setup = bare_setup(rt.alloc(), run, start);
    let (files, greatest) = look_through(rt, path, files, setup)?;
    Ok((files, step_behind(mark, greatest)?))
}

/// Makes the files ready for a run: they are judged, what the log holds is written into FILE, and FILE's mark says that a run has it open.
pub(crate) fn ready(
    rt: &HostRuntime,
    run: &ServerRun<'_>,
    paths: &StorePaths,
    files: Files<File>,
    start: Moment,
) -> Result<(Files<File>, Begun), RunFault> {
    let mut files = files;
    let finding = finding_of(rt.alloc(), &mut files).map_err(run_fault)?;
    judge(rt, run, paths, &mut files, &finding, start)?;
    let (files, step) = stepped(rt, run, paths.file.as_str(), files, finding.mark, start)?;
    let (files, step) = marked(rt, files, step)?;
    Ok((files, Begun { step, finding }))
}

// ---- a start that is refused

// A run that opened nothing leaves the mark of the one before, where the log has no commit.
fn closed_again(rt: &HostRuntime, path: &str, step: u32) -> Result<(), RunFault> {
    let mut files = open_files(rt, path)?;
    let put = put_closed(rt.alloc(), &mut files, step);
    drop(files);
    put.map_err(run_fault)
}

fn put_closed(alloc: Global, files: &mut Files<File>, step: u32) -> Result<(), FilesFault> {
    let found = finding_of(alloc, files)?;
    let mark = Mark::Closed(step);
    match verdict_of(mark, found.log.finding) {
        StartVerdict::Taken if found.mark == Mark::Open(step) => write_mark(files, mark),
        _ => Ok(()),
    }
}

/// Puts back the mark that a run found, once the database was refused that it would have opened. A database that was not left in order was
/// judged before the run's mark was set, so that this is one which a run has left whole.
pub(crate) fn put_back(rt: &HostRuntime, path: &str, begun: &Begun) {
    if let Mark::Closed(step) = begun.finding.mark {
        let _ = closed_again(rt, path, step);
    }
}

// ---- the end of a run

fn closed(files: &mut Files<File>) -> Result<(), FilesFault> {
    match mark_at(&mut files.db)? {
        Mark::Open(step) => write_mark(files, Mark::Closed(step)),
        Mark::Closed(_) | Mark::Unmarked => Err(FilesFault::NoDatabase),
    }
}

// What the log holds goes into FILE, unless the log is damaged.
fn left(rt: &HostRuntime, files: Files<File>, seed: u64) -> Result<(), FilesFault> {
    let mut files = files;
    let found = finding_of(rt.alloc(), &mut files)?;
    if refusal_of(&found).is_some() {
        return Err(FilesFault::Refused);
    }
    let mut files = write_back(rt.alloc(), files, seed)?;
    let ended = closed(&mut files);
    drop(files);
    ended
}

// Whether the files are still those that the run opened.
fn look_again(rt: &HostRuntime, found: &FoundStore) -> Result<(), RunFault> {
    let look = look_at(rt, &found.paths).map_err(lost_fault)?;
    if are_still(&found.opened, 0, &look) {
        Ok(())
    } else {
        Err(RunFault::StoreReplaced)
    }
}

// Why the run, which has ended in order, could not leave its store whole.
fn not_left(fault: RunFault) -> RunFault {
    match fault {
        RunFault::Store(fault) => RunFault::NotLeft(fault),
        fault => fault,
    }
}

// The connection that the run had writes what its log holds into FILE, and cuts the log to its head. Then FILE's mark says that no run
// has it open.
fn left_whole(
    rt: &HostRuntime,
    path: &str,
    keep: CentreKeep<FileStore<File>>,
) -> Result<(), RunFault> {
    let mut files = close_keep(rt, path, keep)?;
    let ended = closed(&mut files);
    drop(files);
    ended.map_err(run_fault)
}

// Leaves the store by the keep that the run had: nobody else has had the files open meanwhile.
fn leave_whole(
    rt: &HostRuntime,
    found: &FoundStore,
    keep: CentreKeep<FileStore<File>>,
) -> Result<(), RunFault> {
    match look_again(rt, found) {
        Ok(()) => left_whole(rt, found.paths.file.as_str(), keep).map_err(not_left),
        Err(fault) => {
            drop(keep);
            Err(fault)
        }
    }
}

// Leaves the store of a run whose keep is gone: the files are opened again.
fn leave(rt: &HostRuntime, found: &FoundStore) -> Result<(), RunFault> {
    let seed = seed_of(rt)?;
    let files = open_files(rt, found.paths.file.as_str())?;
    match look_again(rt, found) {
        Ok(()) => left(rt, files, seed).map_err(|fault| RunFault::NotLeft(files_fault(fault))),
        Err(fault) => {
            drop(files);
            Err(fault)
        }
    }
}

// Whether the store itself ended the run. Rows that are not sound are found before a run has changed any.
fn is_of_store(fault: &RunFault) -> bool {
    matches!(
        fault,
        RunFault::StoreReplaced | RunFault::StoreLost(_) | RunFault::Broken | RunFault::Store(_)
    )
}

/// Leaves the store of a run that ended so: what its log holds is written into FILE, which is the whole store then, and FILE's mark says
/// that no run has it open. After an end in order the keep of the run does that. After a fault of the store both files stay as they are.
pub fn leave_after(
    rt: &HostRuntime,
    found: &FoundStore,
    ended: Result<CentreKeep<FileStore<File>>, RunFault>,
) -> Result<(), RunFault> {
    match ended {
        Ok(keep) => leave_whole(rt, found, keep),
        Err(fault) => {
            if !is_of_store(&fault) {
                let _ = leave(rt, found);
            }
            Err(fault)
        }
    }
}
