//! What a run forgets as it goes on.
ghost use Rattle.std.specs.Prelude.{◌≡◌, ◌≤◌, ◌*◌, IfOk, IfSome, IsSomeAnd, MatchOption, None, is_some, true};
ghost use Rattle.smsc_operation.specs.Archiving.{archive_in, ledger_in};

use crate::watchers::Watchers;
use sms_base::Moment;
use smsc_cli::words::ServerRun;
use smsc_operation::archive::RunArchive;
use smsc_operation::ledger::LineFile;
use smsc_operation::logged_archive::LoggedArchive;
use smsc_service::Forgetting;
use std::alloc::AllocError;
use std::sync::{Arc, Wait};
use std::time::Clock;

// A day has so many seconds.
const DAY: u64 = 86_400;

/// Where a run writes what it forgets.
pub type FileArchive<R> = LoggedArchive<RunArchive<LineFile>, R>;

// What is kept of messages that have ended, in seconds. The rows may be older than the clock, which may be wrong: so much longer they are kept.
fn kept_of(run: &ServerRun<'_>, start: Moment, newest: Moment) -> Option<u64>
    ensures { MatchOption run.now.keep (result ≡ None) (λ days. IsSomeAnd result (λ seconds. 86400 * days ≤ seconds)) }
{
    let behind = start.seconds().saturating_sub(newest.seconds());
    let kept = DAY * u64::from(run.keep?);
    Some(kept.saturating_add(behind))
}

// A run that forgets nothing needs no archive.
fn path_of(keep: Option<u64>, path: Option<&str>) -> Option<&str>
    ensures { is_some keep ≡ true → is_some result ≡ is_some path.entry }
{
    match keep {
        Some(_) => path,
        None => None,
    }
}

// The archive of the run, if it forgets anything.
fn archive_of<R: Wait + Clock + Copy>(
    host: &HostRuntime,
    rt: R,
    watchers: &Watchers<R>,
    path: Option<&str>,
) -> Result<FileArchive<R>, AllocError>
    ensures { IfOk result (λ logged. IfSome (archive_in logged) (λ archive. is_some (ledger_in archive) ≡ is_some path.entry)) }
{
    let log = Arc::try_clone(&watchers.log)?;
    let gone = watchers.gone()?;
    let archive = RunArchive::open(host, path).ok();
    Ok(LoggedArchive::new(host.alloc(), archive, log, rt, gone))
}

/// What a run forgets as it goes on, by its words. It starts at that moment, and its newest row is of that one.
pub fn forgetting_of<R: Wait + Clock + Copy>(
    host: &HostRuntime,
    rt: R,
    watchers: &Watchers<R>,
    run: &ServerRun<'_>,
    start: Moment,
    newest: Moment,
) -> Result<Forgetting<FileArchive<R>>, AllocError>
    // Nothing goes unless the words say for how many days it is kept, and then none goes sooner.
    ensures keep { IfOk result (λ forgetting. MatchOption run.now.keep (forgetting.keep ≡ None)
        (λ days. IsSomeAnd forgetting.keep (λ seconds. 86400 * days ≤ seconds))) }
    // What goes has its line where the words name a file for that, if the file could be opened.
    ensures archive { IfOk result (λ forgetting. is_some forgetting.keep ≡ true
        → IfSome (archive_in forgetting.archive) (λ archive. is_some (ledger_in archive) ≡ is_some run.now.archive)) }
{
    let keep = kept_of(run, start, newest);
    let path = path_of(keep, run.archive);
    Ok(Forgetting {
        keep,
        archive: archive_of(host, rt, watchers, path)?,
    })
}
