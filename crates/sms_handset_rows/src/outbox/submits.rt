//! The SUBMIT of a part that the owner wrote.
ghost use Rattle.std.specs.Prelude.{◌≡◌, IfOk};
ghost use Rattle.sms_base.specs.Address.{IsAddress};
ghost use Rattle.sms_concat.specs.UserData.{HasRoom, IsPart, IsUserData, header_of};
ghost use Rattle.sms_handset_rows.specs.outbox.Submits.{submit_for, submit_octets as octets_of_submit};

use crate::outbox::submit_tpdu::SubmitTpdu;
use sms_base::{Address, OctetView};
use sms_concat::{Part, UserData as PartData, user_data};
use sms_tpdu::{Submit, UserData, ValidityPeriod, write_submit};
use std::alloc::{AllocError, Global};

// The SUBMIT with the user data of a part.
fn submit_with(
    alloc: Global,
    message_reference: u8,
    destination: &Address,
    report: bool,
    part: &Part,
    fields: &PartData,
    octets: &[u8],
) -> Result<SubmitTpdu, AllocError>
    requires address { IsAddress destination.now }
    requires part { IsPart part.now }
    requires room { HasRoom part.now }
    requires fields { IsUserData (header_of part.now.key) part.now.content fields.now }
    requires octets { octets.now ≡ fields.now.octets }
    ensures { IfOk result (λ tpdu. tpdu ≡ octets_of_submit (submit_for message_reference destination.now report part.now)) }
{
    let tpdu = write_submit(
        alloc,
        &Submit {
            reject_duplicates: false,
            status_report_request: report,
            user_data_header_indicator: fields.header_indicator,
            reply_path: false,
            message_reference,
            destination_address: *destination,
            protocol_identifier: 0,
            data_coding_scheme: part.content.dcs,
            validity_period: ValidityPeriod::NotPresent,
            user_data: UserData {
                length: fields.length,
                octets: OctetView::of(octets),
            },
        },
    )?;
    Ok(SubmitTpdu::of(tpdu))
}

/// The SUBMIT that carries a part under that reference to the destination.
pub fn submit_of_part(
    alloc: Global,
    message_reference: u8,
    destination: &Address,
    report: bool,
    part: &Part,
) -> Result<SubmitTpdu, AllocError>
    requires address { IsAddress destination.now }
    requires part { IsPart part.now }
    requires room { HasRoom part.now }
    ensures { IfOk result (λ tpdu. tpdu ≡ octets_of_submit (submit_for message_reference destination.now report part.now)) }
{
    let fields = user_data(alloc, part)?;
    let tpdu = submit_with(
        alloc,
        message_reference,
        destination,
        report,
        part,
        &fields,
        fields.octets.as_slice(),
    )?;
    Ok(tpdu)
}
