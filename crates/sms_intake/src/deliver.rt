//! The DELIVER of a part.
ghost use Rattle.std.specs.Prelude.{◌≡◌, ◌<◌, IfOk, length};
ghost use Rattle.sms_base.specs.Address.{IsAddress};
ghost use Rattle.sms_tpdu.specs.TpduGrammar.{IsDeliverData};
ghost use Rattle.sms_intake.specs.PartBodies.{IsPartData, deliver_octets, deliver_of, deliver_written, is_wish};

use crate::submission::{SinglePart, Submission};
use sms_base::{Moment, OctetView, Octets, Wish};
use sms_tpdu::{Deliver, UserData, write_deliver};
use std::alloc::{AllocError, Global};

fn is_wish(wish: Wish) -> bool
    ensures { result ≡ is_wish wish }
{
    match wish {
        Wish::Nothing => false,
        Wish::Always | Wish::OnFailure => true,
    }
}

fn deliver_of<'a>(moment: Moment, submission: &Submission, body: &'a SinglePart) -> Deliver<'a>
    ensures { result ≡ deliver_of moment submission.now body.now }
{
    Deliver {
        no_more_messages_to_send: true,
        loop_prevention: false,
        status_report_indication: is_wish(submission.wish),
        user_data_header_indicator: body.header_indicator,
        reply_path: submission.reply_path,
        originating_address: submission.source,
        protocol_identifier: submission.protocol_identifier,
        data_coding_scheme: body.data_coding_scheme,
        service_centre_time_stamp: moment,
        user_data: UserData {
            length: body.length,
            octets: OctetView::of(body.octets.as_slice()),
        },
    }
}

// The octets of a DELIVER, told by the one list that it has.
fn written(alloc: Global, deliver: &Deliver<'_>) -> Result<Octets, AllocError>
    requires address { IsAddress deliver.now.originating_address }
    requires user_data { IsDeliverData deliver.now }
    ensures is { IfOk result (λ octets. octets ≡ deliver_written deliver.now) }
    ensures short { IfOk result (λ octets. length octets < 256) }
{
    write_deliver(alloc, deliver)
}

/// The DELIVER of a part whose reference was given at that moment, which is TP-SCTS. TP-MMS is 1, as no offer has set
/// it yet. At most 163 octets. Takes memory once.
pub fn deliver_octets(
    alloc: Global,
    moment: Moment,
    submission: &Submission,
    body: &SinglePart,
) -> Result<Octets, AllocError>
    requires address { IsAddress submission.now.source }
    requires user_data { IsPartData body.now }
    ensures is { IfOk result (λ octets. octets ≡ deliver_octets moment submission.now body.now) }
    ensures short { IfOk result (λ octets. length octets < 256) }
{
    written(alloc, &deliver_of(moment, submission, body))
}
