//! The answer to a bind that is accepted.
ghost use Rattle.std.specs.Prelude.{◌≡◌, ◌++◌, IfOk, OnOk};
ghost use Rattle.smpp_pdu.specs.Fields.{four};
ghost use Rattle.smpp_session.specs.SessionTable.{accepting_bind, resp_length, resp_octet, version_parameter};

use crate::action::BindKind;
use crate::table::takes_parameters;
use sms_base::Octets;
use std::alloc::{AllocError, Global};

// sc_interface_version with the octet of version 3.4 (SMPP v3.4 5.3.2.25).
const SC_INTERFACE_VERSION: [u8; 5] = [0x02, 0x10, 0x00, 0x01, 0x34];

// An integer of four octets, the most significant first.
fn four_octets(number: u32) -> [u8; 4]
    ensures { result ≡ four number }
{
    let high = number / 65_536;
    let low = number % 65_536;
    [
        (high / 256) as u8,
        (high % 256) as u8,
        (low / 256) as u8,
        (low % 256) as u8,
    ]
}

// The last octet of the command_id of the response.
fn resp_octet(kind: BindKind) -> u8
    ensures { result ≡ resp_octet kind }
{
    match kind {
        BindKind::Receiver => 1,
        BindKind::Transmitter => 2,
        BindKind::Transceiver => 9,
    }
}

// How many octets the response has.
fn length_for(version: u8) -> u8
    ensures { result ≡ resp_length version }
{
    if takes_parameters(version) { 26 } else { 21 }
}

// Puts the parameter that an application of that version takes.
fn put_parameter(octets: &mut Octets, version: u8) -> Result<(), AllocError>
    ensures { OnOk result (octets.new ≡ octets.old ++ version_parameter version) }
{
    if takes_parameters(version) {
        octets.append(&SC_INTERFACE_VERSION)?;
    }
    Ok(())
}

/// The octets of the answer to a bind of that version: the name of the centre, and `sc_interface_version`.
pub(crate) fn accepting_bind(
    alloc: Global,
    kind: BindKind,
    version: u8,
    number: u32,
) -> Result<Octets, AllocError>
    ensures { IfOk result (λ octets. octets ≡ accepting_bind kind version number) }
{
    let head = [
        0,
        0,
        0,
        length_for(version),
        0x80,
        0,
        0,
        resp_octet(kind),
        0,
        0,
        0,
        0,
    ];
    let mut octets = Octets::copy_of(alloc, &head)?;
    octets.append(&four_octets(number))?;
    octets.append(b"smsc\0")?;
    put_parameter(&mut octets, version)?;
    Ok(octets)
}
