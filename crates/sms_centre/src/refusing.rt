//! Why a request is refused, whatever memory there is.
ghost use Rattle.std.specs.Prelude.{◌≡◌};
ghost use Rattle.sms_centre_spec.specs.Draft.{Core};
ghost use Rattle.sms_centre_spec.specs.Requests.{account_at as account_at_of, cancel_refusal as cancel_refusal_of, octets_refuse};
ghost use Rattle.sms_centre_spec.specs.Requests.{query_refusal as query_refusal_of};
ghost use Rattle.sms_centre.specs.state.CentreState.{Represents};

use crate::state::CentreState;
use smpp_pdu::{CancelSm, CommandStatus, Message, QuerySm};
use sms_centre_events::{account_at, refusal_of_cancel, refusal_of_query};
use sms_intake::refusal_of;

/// The status with which its octets refuse a submit_sm of the account at that place, if they do.
pub(crate) fn submit_refusal(
    centre_state: &CentreState,
    account: u8,
    message: &Message<'_>,
) -> Option<CommandStatus>
    ensures { result ≡ octets_refuse (account_at_of account centre_state.now.setup.accounts) centre_state.now.moment message.now }
{
    match account_at(&centre_state.setup, account) {
        Some(account) => refusal_of(account, centre_state.moment, message),
        None => None,
    }
}

/// The status with which a query_sm of the account at that place is refused, if it is.
pub(crate) fn query_refusal(
    centre_state: &CentreState,
    account: u8,
    query: &QuerySm<'_>,
) -> Option<CommandStatus>
    ensures { (c : Core) → Represents c centre_state.now → result ≡ query_refusal_of account query.now c }
{
    match account_at(&centre_state.setup, account) {
        Some(account) => refusal_of_query(&centre_state.messages, account, query),
        None => Some(CommandStatus::ESME_RSYSERR),
    }
}

/// The status with which a cancel_sm of the account at that place is refused, if it is.
pub(crate) fn cancel_refusal(
    centre_state: &CentreState,
    account: u8,
    cancel: &CancelSm<'_>,
) -> Option<CommandStatus>
    ensures { (c : Core) → Represents c centre_state.now → result ≡ cancel_refusal_of account cancel.now c }
{
    match account_at(&centre_state.setup, account) {
        Some(account) => refusal_of_cancel(&centre_state.messages, account, cancel),
        None => Some(CommandStatus::ESME_RSYSERR),
    }
}
