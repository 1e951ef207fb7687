//! What is reported of a message that ended.
ghost use Rattle.std.specs.Prelude.{◌≡◌};
ghost use Rattle.sms_centre_spec.specs.Finals.{final_of as final_of_message, submit_reference as submit_reference_of};

use sms_base::{FinalState, Moment, Originator};
use sms_centre_rows::messages::MessageRow;
use sms_receipt::Final;

// TP-MR of the SUBMIT of a handset's message.
fn submit_reference(originator: &Originator) -> u8
    ensures { result ≡ submit_reference_of originator.now }
{
    match originator {
        Originator::Application { .. } => 0,
        Originator::Handset { message_reference } => *message_reference,
    }
}

/// What is reported of a message that ended so at a moment.
pub fn final_of(state: FinalState, moment: Moment, message: &MessageRow) -> Final
    ensures { result ≡ final_of_message state moment message.now }
{
    Final {
        id: message.id,
        source: message.source,
        handset: message.handset,
        message_reference: submit_reference(&message.originator),
        submitted: message.submitted,
        done: moment,
        state,
    }
}
