//! The handsets and sessions of a seat map, as a centre that starts again wants them.
ghost use Rattle.std.specs.Prelude.{◌≡◌, IfOk, OnOk, Some, slice_get};
ghost use Rattle.sms_centre_spec.specs.SoundCore.{AreDifferent};
ghost use Rattle.sms_centre.specs.state.Recovering.{AreNew};
ghost use Rattle.smsc_service.specs.Seats.{seats_in};
ghost use Rattle.smsc_service.specs.BoundSession.{handsets_of as handsets_of_links, is_among as is_among_of, sessions_of as sessions_of_bound};
ghost use Rattle.smsc_service.specs.BoundSession.{with_number, with_session};

use crate::number::{is_number, is_same};
use crate::seat_map::{BoundSession, SeatMap};
use sms_base::Msisdn;
use sms_centre::ReceiptSession;
use sms_centre_spec::Rows;
use sms_intake::CentreAccount;
use sms_rows::table::Table;
use std::alloc::{AllocError, Global};

// Whether the handset is one of these.
fn is_among(handset: Msisdn, handsets: &[Msisdn]) -> bool
    ensures { result ≡ is_among_of handset handsets.now }
{
    match handsets {
        [] => false,
        [first, rest @ ..] => {
            if is_same(first, &handset) {
                true
            } else {
                is_among(handset, rest)
            }
        }
    }
}

fn push_new(handset: Msisdn, handsets: &mut Vec<Msisdn>) -> Result<(), AllocError>
    requires apart { AreDifferent handsets.old.items }
    ensures pushed { OnOk result (handsets.new.items ≡ with_number handset handsets.old.items) }
    ensures apart { AreDifferent handsets.new.items }
{
    is_number(&handset);
    if is_among(handset, handsets.as_slice()) {
        return Ok(());
    }
    handsets.push(handset)?;
    Ok(())
}

/// The handsets that have links, each once.
pub fn handsets_of(alloc: Global, seat_map: &SeatMap) -> Result<Vec<Msisdn>, AllocError>
    ensures handsets { IfOk result (λ handsets. handsets.items ≡ handsets_of_links (seats_in seat_map.now).links) }
    ensures apart { IfOk result (λ handsets. AreDifferent handsets.items) }
{
    let mut handsets = Vec::new(alloc);
    for link in seat_map.links.as_slice() {
        push_new(link.handset, &mut handsets)?;
    }
    Ok(handsets)
}

fn put_session_of(
    alloc: Global,
    account: &CentreAccount,
    bound_session: &BoundSession,
    sessions: &mut Table<ReceiptSession>,
) -> Result<(), AllocError>
    requires { AreNew sessions.old.rows }
    ensures put { OnOk result (sessions.new.rows ≡ with_session (Some account.now) bound_session.now sessions.old.rows) }
    ensures new { AreNew sessions.new.rows }
{
    let name = account.name.as_slice();
    let seat = ReceiptSession::new(alloc, bound_session.seat, name, bound_session.receives)?;
    sessions.put(seat)
}

// The session that is bound at a seat is added, if its account is there.
fn put_session(
    alloc: Global,
    accounts: &[CentreAccount],
    bound_session: &BoundSession,
    sessions: &mut Table<ReceiptSession>,
) -> Result<(), AllocError>
    requires { AreNew sessions.old.rows }
    ensures put { OnOk result (sessions.new.rows ≡ with_session (slice_get accounts.now bound_session.now.account) bound_session.now sessions.old.rows) }
    ensures new { AreNew sessions.new.rows }
{
    match accounts.get(usize::from(bound_session.account)) {
        Some(account) => put_session_of(alloc, account, bound_session, sessions),
        None => Ok(()),
    }
}

/// The sessions that are bound.
pub fn sessions_of(
    alloc: Global,
    rows: &Rows,
    seat_map: &SeatMap,
) -> Result<Table<ReceiptSession>, AllocError>
    ensures sessions { IfOk result (λ sessions. sessions.rows ≡ sessions_of_bound rows.now.setup.accounts (seats_in seat_map.now).bound_sessions) }
    ensures new { IfOk result (λ sessions. AreNew sessions.rows) }
{
    let mut sessions = Table::new(alloc);
    for bound_session in seat_map.bound_sessions.as_slice() {
        put_session(
            alloc,
            rows.setup.accounts.as_slice(),
            bound_session,
            &mut sessions,
        )?;
    }
    Ok(sessions)
}
