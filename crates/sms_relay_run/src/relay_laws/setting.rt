//! A centre without rows, and the frame that brings it a unit.
ghost use Rattle.std.specs.Prelude.{◌≡◌, ◌<◌, ◌≤◌, IfOk, IfSome, length};
ghost use Rattle.sms_base.specs.Msisdn.{IsMsisdn};
ghost use Rattle.sms_relay.specs.RelayReading.{up_at};
ghost use Rattle.sms_relay_run.specs.relay_laws.Relaying.{destination_in, destination_of, frame_for, handsets_for, setup_for};
ghost use Rattle.sms_tpdu.specs.TpduReading.{up_at as tpdu_up_at};
ghost use Rattle.sms_tpdu.specs.declared.carrier.Carrier.TheVariants.{InData};

use sms_base::{Address, Listed, Moment, Msisdn, OctetView, Octets};
use sms_centre_spec::Setup;
use sms_control::{Cp, Transaction, TransactionFlag, TransactionIdentifier};
use sms_relay::{Rp, read_up};
use sms_tpdu::{Carrier, Up, read_up as read_tpdu};
use std::alloc::{AllocError, Global};

/// The most octets of a unit that CP-DATA carries (3GPP TS 24.011 8.1.4.1).
pub const LONGEST_UNIT: usize = 248;

/// The setup of a centre without accounts.
pub fn setup_for(alloc: Global, centre: Address, now: Moment) -> Setup
    ensures { result ≡ setup_for centre now }
{
    Setup {
        centre,
        start: now,
        first: 1,
        accounts: Listed::new(alloc),
    }
}

fn destination_in(unit: &[u8]) -> Option<Address>
    ensures { result ≡ destination_in (tpdu_up_at InData unit.now) }
{
    match read_tpdu(unit, Carrier::InData) {
        Ok(Up::Submit(submit)) => {
            if submit.destination_address.names_handset() {
                Some(submit.destination_address)
            } else {
                None
            }
        }
        Ok(Up::DeliverReport(_)) | Err(_) => None,
    }
}

/// The address by which the unit's SUBMIT names a handset as its destination, if it does.
pub fn destination_of(unit: &[u8]) -> Option<Address>
    ensures { result ≡ destination_of (up_at unit.now) }
{
    match read_up(unit) {
        Ok(
            Rp::DataUnit {
                reference: _,
                centre: _,
                unit,
            },
        ) => destination_in(unit.as_slice()),
        Ok(_) | Err(_) => None,
    }
}

/// The sender, and the destination where it is another.
pub fn handsets_for(
    alloc: Global,
    from: Msisdn,
    to: Option<Address>,
) -> Result<Vec<Msisdn>, AllocError>
    requires { IfSome to (λ address. IsMsisdn address.digits) }
    ensures { IfOk result (λ handsets. handsets.items ≡ handsets_for from to) }
{
    let mut handsets = Vec::new(alloc);
    handsets.push(from)?;
    if let Some(to) = to {
        let number = Msisdn::spelled_by(&to.digits);
        if from != number {
            handsets.push(number)?;
        }
    }
    Ok(handsets)
}

/// The unit in CP-DATA, which opens the sender's first transaction.
pub fn frame_for(alloc: Global, unit: &[u8]) -> Result<Octets, AllocError>
    requires some { 0 < length unit.now }
    requires fits { length unit.now ≤ 248 }
    ensures { IfOk result (λ octets. octets ≡ frame_for unit.now) }
{
    let frame = Cp::DataUnit {
        transaction: Transaction {
            flag: TransactionFlag::FromOriginator,
            identifier: TransactionIdentifier::first(),
        },
        unit: OctetView::of(unit),
    };
    frame.write(alloc)
}
