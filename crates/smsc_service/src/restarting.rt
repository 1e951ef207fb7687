//! A centre that starts again.
ghost use Rattle.std.specs.Prelude.{◌≡◌, IfOk, OnOk};
ghost use Rattle.sms_rows.specs.keep.StoreOutcome.{StoreOutcome, WasHonest};
ghost use Rattle.sms_centre.specs.state.CentreState.{Represents};
ghost use Rattle.sms_centre_spec.specs.bodies.Storing.{IfClosed};
ghost use Rattle.sms_centre_group.specs.Grouping.{held_in, store_of};
ghost use Rattle.sms_centre_spec.specs.CentreEvent.{recovered};
ghost use Rattle.sms_centre_spec.specs.Draft.{no_changes};
ghost use Rattle.sms_centre_spec.specs.SoundCore.{AreDifferent};
ghost use Rattle.sms_centre_spec.specs.declared.rows.Rows.{Rows as RowsOf};
ghost use Rattle.smsc_service.specs.Accounts.{bare, with_accounts};
ghost use Rattle.smsc_service.specs.Seats.{seats_in};
ghost use Rattle.smsc_service.specs.Serving.{restarted};
ghost use Rattle.smsc_service.specs.BoundSession.{sessions_of as sessions_of_bound};

use crate::bound_session::{handsets_of, sessions_of};
use crate::seat_map::SeatMap;
use crate::start_error::StartError;
use sms_base::lending::put;
use sms_base::{Listed, Msisdn};
use sms_centre::{Centre, Rows};
use sms_centre_group::GroupKeep;
use sms_centre_spec::bodies::CentreStore;
use sms_intake::CentreAccount;
use std::alloc::Global;

// With links to these handsets, and the sessions of the seat map.
fn recovered_with(
    alloc: Global,
    rows: Rows,
    handsets: &[Msisdn],
    seat_map: &SeatMap,
) -> Result<Centre, StartError>
    requires apart { AreDifferent handsets.now }
    ensures { IfOk result (Represents (recovered rows handsets.now (sessions_of_bound rows.setup.accounts (seats_in seat_map.now).bound_sessions))) }
{
    let Ok(sessions) = sessions_of(alloc, &rows, seat_map) else {
        return Err(StartError::NoMemory);
    };
    let centre = Centre::recover(alloc, rows, handsets, sessions)?;
    Ok(centre)
}

fn recovered_at(alloc: Global, rows: Rows, seat_map: &SeatMap) -> Result<Centre, StartError>
    ensures { IfOk result (Represents (restarted rows (seats_in seat_map.now)).core) }
{
    match handsets_of(alloc, seat_map) {
        Ok(handsets) => recovered_with(alloc, rows, handsets.as_slice(), seat_map),
        Err(_) => Err(StartError::NoMemory),
    }
}

// The rows, with these accounts.
fn with_accounts_of(rows: Rows, accounts: Vec<CentreAccount>) -> Rows
    ensures { result ≡ with_accounts accounts.items rows }
{
    let mut rows = rows;
    put(&mut rows.setup.accounts, Listed::from_vec(accounts));
    rows
}

/// The centre that starts again with the rows of the store and these accounts, and with the links and sessions of the seat map. The store
/// was opened without accounts. What the group changed is let go.
pub(crate) fn restarted_from<K: CentreStore + Drop>(
    alloc: Global,
    keep: &mut GroupKeep<K>,
    accounts: Vec<CentreAccount>,
    seat_map: &SeatMap,
) -> Result<Centre, StartError>
    ensures outcome { (rows : RowsOf) → rows.setup.accounts ≡ accounts.items
        → StoreOutcome (λ centre. Represents (restarted rows (seats_in seat_map.now)).core centre) (bare rows) (bare rows)
        (K.state (store_of keep.old)) (K.state (store_of keep.new)) result }
    ensures closed { IfClosed (K.state (store_of keep.old)) (K.state (store_of keep.new)) (OnOk result ⊥) }
    ensures held { held_in keep.new ≡ no_changes }
    ensures before { WasHonest (K.state (store_of keep.old)) (K.state (store_of keep.new)) }
{
    match keep.gather() {
        Ok(rows) => recovered_at(alloc, with_accounts_of(rows, accounts), seat_map),
        Err(error) => {
            drop(accounts);
            Err(StartError::Store(error))
        }
    }
}
