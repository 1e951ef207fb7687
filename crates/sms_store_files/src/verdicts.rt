//! Whether a run may start over a store.
ghost use Rattle.std.specs.Prelude.{◌≡◌};
ghost use Rattle.sms_store_files.specs.Verdicts.{verdict_closed, verdict_of, verdict_open, verdict_unmarked};

use crate::judging::LogFinding;
use crate::marking::Mark;

/// Whether a run may start over a store, and why not.
#[derive(Clone, Copy, PartialEq, Eq)]
pub enum StartVerdict {
    /// Both files are as a run left them.
    Taken,
    /// The files are whole, but for one commit that was never confirmed.
    TakenTorn,
    /// The log of the last run is missing.
    NoLog,
    /// The log has no head that was written.
    HasNoHead,
    /// The log has frames, but the last run closed the file: it is another file's log.
    OtherFiles,
    /// What the log has behind its last whole commit is no torn commit.
    IsDamaged,
}

fn verdict_closed(finding: LogFinding) -> StartVerdict
    ensures { result ≡ verdict_closed finding }
{
    match finding {
        LogFinding::Missing | LogFinding::Emptied | LogFinding::Emptying => StartVerdict::Taken,
        LogFinding::Unsigned => StartVerdict::HasNoHead,
        LogFinding::Whole | LogFinding::Torn | LogFinding::Damaged => StartVerdict::OtherFiles,
    }
}

fn verdict_open(finding: LogFinding) -> StartVerdict
    ensures { result ≡ verdict_open finding }
{
    match finding {
        LogFinding::Missing => StartVerdict::NoLog,
        LogFinding::Emptied | LogFinding::Emptying | LogFinding::Whole => StartVerdict::Taken,
        LogFinding::Unsigned => StartVerdict::HasNoHead,
        LogFinding::Torn => StartVerdict::TakenTorn,
        LogFinding::Damaged => StartVerdict::IsDamaged,
    }
}

fn verdict_unmarked(finding: LogFinding) -> StartVerdict
    ensures { result ≡ verdict_unmarked finding }
{
    match finding {
        LogFinding::Missing | LogFinding::Emptied | LogFinding::Emptying | LogFinding::Whole =>
            StartVerdict::Taken,
        LogFinding::Unsigned => StartVerdict::HasNoHead,
        LogFinding::Torn => StartVerdict::TakenTorn,
        LogFinding::Damaged => StartVerdict::IsDamaged,
    }
}

/// Whether a run may start over a store whose file has this mark and whose log says this.
pub fn verdict_of(mark: Mark, finding: LogFinding) -> StartVerdict
    ensures { result ≡ verdict_of mark finding }
{
    match mark {
        Mark::Unmarked => verdict_unmarked(finding),
        Mark::Closed(_) => verdict_closed(finding),
        Mark::Open(_) => verdict_open(finding),
    }
}
