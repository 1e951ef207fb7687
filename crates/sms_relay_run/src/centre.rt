//! What a centre that starts with no rows does with one frame.
ghost use Rattle.std.specs.Prelude.{◌≡◌, ℕ, [], List, IfOk};
ghost use Rattle.sms_base.specs.HandsetNumber.{own_address};
ghost use Rattle.sms_base.specs.declared.address.Address.{Address as AddressOf};
ghost use Rattle.sms_centre.specs.state.CentreState.{Represents};
ghost use Rattle.sms_centre.specs.plans.EventOutcome.{AreOutputs};
ghost use Rattle.sms_centre_spec.specs.CentreEvent.{happened, started};
ghost use Rattle.sms_centre_spec.specs.SoundCore.{AreDifferent};
ghost use Rattle.sms_centre_spec.specs.SoundRows.{IsSound, first_rows as first_rows_of};
ghost use Rattle.sms_base.specs.Address.{IsAddress};
ghost use Rattle.sms_base.specs.TimeStamp.{IsMoment};
ghost use Rattle.sms_relay_run.specs.Sending.{SendsFor};
ghost use Rattle.sms_centre_spec.specs.declared.setup.Setup.{Setup as SetupOf};
ghost use Rattle.sms_relay.specs.RelayReading.{up_at};
ghost use Rattle.sms_relay_run.specs.relay_laws.Relay.{IsRelayed};
ghost use Rattle.sms_relay_run.specs.relay_laws.Relaying.{Relays, destination_of, frame_for, handsets_for, setup_for};

use crate::bodies::NoBodies;
use crate::relay_laws::{Relayed, setup_for, units_in};
use sms_base::{Address, Moment, Msisdn, OctetView};
use sms_centre::{Centre, CentreEvent, Outputs, RecoverError, Rows, first_rows, with_centre};
use sms_rows::table::Table;
use std::alloc::{AllocError, Global};

// The outputs of the centre for the event. Its store refuses nothing, so only memory can be wanting.
fn plan_and_adopt(centre: &mut Centre, event: &CentreEvent<'_>) -> Result<Outputs, AllocError>
    ensures { (setup : SetupOf) (handsets : List (List ℕ)) → Represents (started (first_rows_of setup) handsets []) centre.old
        → IfOk result (AreOutputs (happened event.now (started (first_rows_of setup) handsets []))) }
{
    let mut bodies = NoBodies {};
    match centre.plan(event, &mut bodies) {
        Ok(planned) => Ok(centre.adopt(planned)),
        Err(_) => Err(AllocError),
    }
}

// What the centre sends for the frame of a handset, without the control layer.
fn relay_by(
    alloc: Global,
    centre: &mut Centre,
    from: Msisdn,
    frame: &[u8],
    to: Option<Address>,
) -> Result<Relayed, AllocError>
    ensures { SendsFor from frame.now to centre.old result }
{
    let event = CentreEvent::Frame {
        handset: from,
        octets: OctetView::of(frame),
        tag: None,
    };
    let outputs = plan_and_adopt(centre, &event)?;
    units_in(alloc, to, outputs.frames.as_slice())
}

// The rows of a centre that starts at that moment, without accounts.
fn rows_for(alloc: Global, centre: Address, now: Moment) -> Rows
    requires centre { IsAddress centre }
    requires now { IsMoment now }
    ensures rows { result ≡ first_rows_of (setup_for centre now) }
    ensures sound { IsSound result }
{
    first_rows(alloc, setup_for(alloc, centre, now))
}

/// A centre starts with no rows and with links to these handsets, and takes the frame of one of them. It gives what the
/// centre sends, without the control layer.
pub(crate) fn relay_started(
    alloc: Global,
    centre: Address,
    now: Moment,
    handsets: &[Msisdn],
    from: Msisdn,
    frame: &[u8],
    to: Option<Address>,
) -> Result<Relayed, AllocError>
    requires centre { IsAddress centre }
    requires now { IsMoment now }
    requires apart { AreDifferent handsets.now }
    ensures { (unit : List ℕ) → handsets.now ≡ handsets_for from (destination_of (up_at unit)) → frame.now ≡ frame_for unit → to ≡ destination_of (up_at unit)
        → Relays centre from now unit → IfOk result (λ r. IsRelayed centre (own_address from) now unit r) }
{
    let rows = rows_for(alloc, centre, now);
    let relayed = with_centre(alloc, rows, handsets, Table::new(alloc), |centre| {
        relay_by(alloc, centre, from, frame, to)
    });
    match relayed {
        Ok(relayed) => relayed,
        Err(RecoverError::NoMemory) => Err(AllocError),
        Err(RecoverError::BadRows) => unreachable!(),
    }
}
