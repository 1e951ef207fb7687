//! How a centre on rows in memory starts, and starts again.
ghost use Rattle.std.specs.Prelude.{◌≡◌, ◌≤◌, length, IfOk, OnOk};
ghost use Rattle.std.specs.Fn.{FnOnceReturnsAtMut};
ghost use Rattle.sms_centre.specs.state.Recovering.{AreNew};
ghost use Rattle.sms_centre.specs.state.CentreState.{Represents as StateRepresents};
ghost use Rattle.sms_store_memory.specs.centre.RowsInKeep.{rows_in};
ghost use Rattle.sms_centre_spec.specs.CentreEvent.{moment_of as moment_of_rows, recovered, started};
ghost use Rattle.sms_centre_spec.specs.Draft.{Core};
ghost use Rattle.sms_centre_spec.specs.SoundRows.{IsSetup, IsSound, first_rows as first_rows_of};
ghost use Rattle.sms_player.specs.heads.Heads.{AreHandsets};
ghost use Rattle.sms_play.specs.PlayedEvent.{sessions_from};
ghost use Rattle.sms_player.specs.centre.PlayedCentre.{Represents as PlayedRepresents, IsSomeCentre};

use crate::centre::sessions::sessions_of;
use sms_base::lending::lend;
use sms_base::{Moment, Msisdn};
use sms_centre::{Centre, ReceiptSession, RecoverError, Rows, Setup, first_rows, with_centre};
use sms_centre_recovery::starting::moment_among;
use sms_centre_spec::octets::copy_of_setup;
use sms_rows::table::Table;
use sms_store_memory::centre::MemoryKeep;
use std::alloc::{AllocError, Global};

// ---- the first start

// A centre that starts with sound rows is lent.
fn lend_started<R, W: FnOnce(&mut Centre) -> R>(
    alloc: Global,
    rows: Rows,
    handsets: &[Msisdn],
    sessions: Table<ReceiptSession>,
    work: W,
) -> Result<R, AllocError>
    requires sound { IsSound rows }
    requires handsets { AreHandsets handsets.now }
    requires sessions { AreNew sessions.rows }
    requires work { (lent : _) → StateRepresents (started rows handsets.now sessions.rows) lent.now → W.pre work lent }
    ensures { IfOk result (λ given. (lent : _) × (next_state : _) × StateRepresents (started rows handsets.now sessions.rows) lent
        × FnOnceReturnsAtMut W.FnOnce work lent given next_state) }
{
    match with_centre(alloc, rows, handsets, sessions, work) {
        Ok(given) => Ok(given),
        Err(RecoverError::NoMemory) => Err(AllocError),
        Err(RecoverError::BadRows) => unreachable!(),
    }
}

/// Starts a centre with the first rows of a new store, and lends it to the work. It has links to these handsets that
/// are up, and a session of each account. It gives what the work gives. Who calls this owns no centre.
///
/// # Errors
/// A growth was refused. The work is not done then.
pub fn with_first_centre<R, W: FnOnce(&mut Centre) -> R>(
    alloc: Global,
    setup: &Setup,
    handsets: &[Msisdn],
    work: W,
) -> Result<R, AllocError>
    requires setup { IsSetup setup.now }
    requires few { length setup.now.accounts ≤ 32 }
    requires handsets { AreHandsets handsets.now }
    requires work { (lent : _) → StateRepresents (started (first_rows_of setup.now) handsets.now (sessions_from 0 setup.now.accounts)) lent.now
        → W.pre work lent }
    // What is given is what the work gives of a centre that is consistent with these rows.
    ensures { IfOk result (λ given. (lent : _) × (next_state : _)
        × StateRepresents (started (first_rows_of setup.now) handsets.now (sessions_from 0 setup.now.accounts)) lent
        × FnOnceReturnsAtMut W.FnOnce work lent given next_state) }
{
    let sessions = sessions_of(alloc, setup.accounts.as_slice())?;
    let rows = first_rows(alloc, copy_of_setup(alloc, setup)?);
    lend_started(alloc, rows, handsets, sessions, work)
}

/// Makes a keep in memory of a centre's first rows, lends it to the work, and gives what the work gives. Who calls this owns no keep.
///
/// # Errors
/// A growth was refused. The work is not done then.
pub fn with_first_keep<R, W: FnOnce(&mut MemoryKeep) -> R>(
    alloc: Global,
    setup: &Setup,
    work: W,
) -> Result<R, AllocError>
    requires { (lent : _) → rows_in lent.now ≡ first_rows_of setup.now → W.pre work lent }
    ensures { IfOk result (λ given. (lent : _) × (next_state : _) × (rows_in lent ≡ first_rows_of setup.now)
        × FnOnceReturnsAtMut W.FnOnce work lent given next_state) }
{
    let setup = copy_of_setup(alloc, setup)?;
    Ok(lend(MemoryKeep::new(alloc, setup), work))
}

// ---- restarts

// The greatest moment that the rows have seen: each is looked at once.
fn moment_of(keep: &MemoryKeep) -> Moment
    ensures { result ≡ moment_of_rows (rows_in keep.now) }
{
    moment_among(
        keep.setup().start,
        keep.messages().as_slice(),
        keep.references().as_slice(),
        keep.reports().as_slice(),
    )
}

/// Starts again on its rows, which stay unchanged. Links to its handsets are up at its first tick.
pub(crate) fn restart(
    alloc: Global,
    centre: &mut Centre,
    keep: &MemoryKeep,
    handsets: &[Msisdn],
) -> Result<(), AllocError>
    requires consistent { IsSomeCentre centre.old (rows_in keep.now) }
    requires handsets { AreHandsets handsets.now }
    ensures played { (c : Core) → PlayedRepresents c centre.old (rows_in keep.now)
        → OnOk result (PlayedRepresents (recovered c.rows handsets.now (sessions_from 0 c.rows.setup.accounts)) centre.new (rows_in keep.now)) }
    ensures consistent { IsSomeCentre centre.new (rows_in keep.now) }
{
    let moment = moment_of(keep);
    let sessions = sessions_of(alloc, keep.setup().accounts.as_slice())?;
    match centre.start_again(moment, handsets, sessions) {
        Ok(()) => Ok(()),
        Err(error) => Err(error),
    }
}
