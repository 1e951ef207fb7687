//! What the parameter indicator of a report announces (3GPP TS 23.040 9.2.3.27).
ghost use Rattle.std.specs.Prelude.{◌≡◌, ◌<◌, ◌++◌, ℕ, List, OnOk};
ghost use Rattle.sms_base.specs.Reading.{Takes};
ghost use Rattle.sms_tpdu.specs.TpduGrammar.{report_coding, indicator_of, octet_field, data_field, data_length, parameter_fields};
ghost use Rattle.sms_tpdu.specs.TpduReading.{optional_octet_in, optional_data_in, parameters_in, follows_in};

use crate::bits::{bit, bit_value};
use crate::fault::TpduFault;
use crate::user_data::{UserData, put_user_data, take_user_data};
use sms_alphabet::{Coding, dcs};
use sms_base::{Cursor, Octets};
use std::alloc::AllocError;

/// The fields that the parameter indicator of a report announces.
#[derive(Drop)]
pub struct Parameters<'a> {
    /// TP-PID.
    pub protocol_identifier: Option<u8>,
    /// TP-DCS.
    pub data_coding_scheme: Option<u8>,
    /// TP-UDL and TP-UD, in the default alphabet where no TP-DCS is announced.
    pub user_data: Option<UserData<'a>>,
}

#[tactic(auto, unfolding(crate::specs::TpduReading::optional_octet_in))]
pub(crate) fn take_optional_octet(
    cursor: &mut Cursor<'_>,
    is_present: bool,
) -> Result<Option<u8>, TpduFault>
    ensures { Takes (λ x. x) result cursor.new (optional_octet_in is_present cursor.old) }
{
    if !is_present {
        return Ok(None);
    }
    let octet = cursor.octet(TpduFault::Truncated)?;
    Ok(Some(octet))
}

#[tactic(auto, unfolding(crate::specs::TpduReading::optional_data_in))]
fn take_optional_data<'a>(
    cursor: &mut Cursor<'a>,
    is_present: bool,
    coding: Coding,
    with_header: bool,
) -> Result<Option<UserData<'a>>, TpduFault>
    ensures { Takes (λ x. x) result cursor.new (optional_data_in is_present coding with_header cursor.old) }
{
    if !is_present {
        return Ok(None);
    }
    let data = take_user_data(cursor, coding, with_header)?;
    Ok(Some(data))
}

fn report_coding(scheme: Option<u8>) -> Coding
    ensures { result ≡ report_coding scheme }
{
    match scheme {
        Some(octet) => dcs(octet),
        None => Coding::Septets,
    }
}

/// Takes the fields that an indicator announces.
#[tactic(auto, unfolding(crate::specs::TpduReading::parameters_in))]
pub(crate) fn take_parameters<'a>(
    cursor: &mut Cursor<'a>,
    indicator: u8,
    with_header: bool,
) -> Result<Parameters<'a>, TpduFault>
    ensures { Takes (λ x. x) result cursor.new (parameters_in indicator with_header cursor.old) }
{
    let protocol_identifier = take_optional_octet(cursor, bit(indicator, 0x01))?;
    let data_coding_scheme = take_optional_octet(cursor, bit(indicator, 0x02))?;
    let coding = report_coding(data_coding_scheme);
    let user_data = take_optional_data(cursor, bit(indicator, 0x04), coding, with_header)?;
    Ok(Parameters {
        protocol_identifier,
        data_coding_scheme,
        user_data,
    })
}

/// Answers the fault where octets follow that no bit of the indicator explains.
#[tactic(auto, unfolding(crate::specs::TpduReading::follows_in))]
pub(crate) fn end_after(cursor: &Cursor<'_>, indicator: u8) -> Result<(), TpduFault>
    ensures { result ≡ follows_in indicator cursor.now }
{
    if indicator < 8 {
        return cursor.end(TpduFault::TrailingOctets);
    }
    Ok(())
}

/// The indicator that announces the fields.
pub(crate) fn indicator_of(parameters: &Parameters<'_>) -> u8
    ensures value { result ≡ indicator_of parameters.now }
    ensures range { result < 8 }
{
    bit_value(parameters.protocol_identifier.is_some(), 0x01)
        + bit_value(parameters.data_coding_scheme.is_some(), 0x02)
        + bit_value(parameters.user_data.is_some(), 0x04)
}

/// Puts an octet that is there at the end.
pub(crate) fn put_optional_octet(out: &mut Octets, octet: Option<u8>) -> Result<(), AllocError>
    ensures { OnOk result (out.new ≡ out.old ++ octet_field octet) }
{
    match octet {
        Some(octet) => out.push(octet),
        None => Ok(()),
    }
}

fn put_optional_data(out: &mut Octets, user_data: &Option<UserData<'_>>) -> Result<(), AllocError>
    ensures { OnOk result (out.new ≡ out.old ++ data_field user_data.now) }
{
    match user_data {
        Some(user_data) => put_user_data(out, user_data),
        None => Ok(()),
    }
}

/// Puts the fields at the end.
pub(crate) fn put_parameters(
    out: &mut Octets,
    parameters: &Parameters<'_>,
) -> Result<(), AllocError>
    ensures { OnOk result (out.new ≡ out.old ++ parameter_fields parameters.now) }
{
    put_optional_octet(out, parameters.protocol_identifier)?;
    put_optional_octet(out, parameters.data_coding_scheme)?;
    put_optional_data(out, &parameters.user_data)
}

/// What TP-UDL says, or 0 where no user data is there. A writer makes so many octets of room for it.
pub(crate) fn data_length(parameters: &Parameters<'_>) -> u8
    ensures { result ≡ data_length parameters.now.user_data }
{
    match &parameters.user_data {
        Some(user_data) => user_data.length,
        None => 0,
    }
}
