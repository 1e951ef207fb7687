//! Status reports.
ghost use Rattle.std.specs.Prelude.{◌≡◌, ◌<◌, length, IfOk};
ghost use Rattle.sms_receipt.specs.StatusReports.{status_octets, status_of, status_report_of};

use crate::final_message::Final;
use sms_base::{Address, FinalState, Octets};
use sms_tpdu::{Parameters, Status, StatusReport, write_status_report};
use std::alloc::{AllocError, Global};

fn status_of(state: FinalState) -> Status
    ensures { result ≡ status_of state }
{
    match state {
        FinalState::Delivered => Status::Received,
        FinalState::Expired => Status::ValidityPeriodExpired,
        FinalState::Deleted => Status::DeletedByServiceCentre,
        FinalState::Undeliverable => Status::RemoteProcedureError,
    }
}

/// The status report of a message that a handset submitted: its destination, when it was taken, when and how it ended.
/// TP-MMS is 1, as no offer has set it yet.
pub fn status_report_of(end: &Final) -> StatusReport<'static>
    ensures { result ≡ status_report_of end.now }
{
    StatusReport {
        no_more_messages_to_send: true,
        status_report_qualifier: false,
        user_data_header_indicator: false,
        message_reference: end.message_reference,
        recipient_address: Address::of_handset(end.handset.digits()),
        service_centre_time_stamp: end.submitted,
        discharge_time: end.done,
        status: status_of(end.state).octet(),
        parameters: Parameters {
            protocol_identifier: None,
            data_coding_scheme: None,
            user_data: None,
        },
    }
}

/// The octets of the status report, at most 29. Takes memory once.
pub fn status_report_octets(alloc: Global, end: &Final) -> Result<Octets, AllocError>
    ensures { IfOk result (λ octets. octets ≡ status_octets end.now) }
{
    end.handset.spells_a_number();
    write_status_report(alloc, &status_report_of(end))
}
