//! A centre that is lent.
ghost use Rattle.std.specs.Prelude.{IfErr, IfOk};
ghost use Rattle.std.specs.Fn.{FnOnceReturnsAtMut};
ghost use Rattle.sms_centre_spec.specs.CentreEvent.{started};
ghost use Rattle.sms_centre_spec.specs.SoundCore.{AreDifferent};
ghost use Rattle.sms_centre.specs.state.Recovering.{AreNew, RefusesRows};
ghost use Rattle.sms_centre.specs.state.CentreState.{Represents};

use crate::centre::Centre;
use crate::state::RecoverError;
use sms_base::Msisdn;
use sms_base::lending::lend;
use sms_centre_reports::sessions::ReceiptSession;
use sms_centre_spec::Rows;
use sms_rows::table::Table;
use std::alloc::Global;

/// Starts a centre as `Centre::start` does, lends it to the work, and gives what the work gives. Who calls this owns no centre.
///
/// # Errors
/// As `Centre::start`. The work is not done then.
pub fn with_centre<R, W: FnOnce(&mut Centre) -> R>(
    alloc: Global,
    rows: Rows,
    handsets: &[Msisdn],
    sessions: Table<ReceiptSession>,
    work: W,
) -> Result<R, RecoverError>
    requires apart { AreDifferent handsets.now }
    requires sessions { AreNew sessions.rows }
    requires work { (lent : _) → Represents (started rows handsets.now sessions.rows) lent.now → W.pre work lent }
    // What is given is what the work gives of a centre with these rows.
    ensures given { IfOk result (λ given. (lent : _) × (next_state : _) × Represents (started rows handsets.now sessions.rows) lent
        × FnOnceReturnsAtMut W.FnOnce work lent given next_state) }
    ensures refused { IfErr result (λ error. RefusesRows error rows) }
{
    let centre = Centre::start(alloc, rows, handsets, sessions)?;
    Ok(lend(centre, work))
}
