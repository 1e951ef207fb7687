//! A SUBMIT from a handset.
ghost use Rattle.std.specs.Prelude.{◌≡◌, true, IfOk, Err};
ghost use Rattle.sms_base.specs.Address.{IsAddress};
ghost use Rattle.sms_base.specs.HandsetNumber.{names_handset};
ghost use Rattle.sms_tpdu.specs.TpduReading.{up_at};
ghost use Rattle.sms_tpdu.specs.declared.carrier.Carrier.TheVariants.{InData};
ghost use Rattle.sms_intake.specs.HandsetIntake.{AnswersIntake, from_read, from_submit, is_of_account, is_past, submission_of, wish_of};

use crate::refusal::{SubmitError, SubmitRefusal};
use crate::submission::{CentreAccount, SinglePart, Submission, Text};
use sms_base::{Address, Digits, Moment, Msisdn, Octets, Originator, Priority, Wish};
use sms_concat::header_key;
use sms_tpdu::{Carrier, Submit, Up, ValidityPeriod, read_up, validity};
use std::alloc::{AllocError, Global};

// Whether a limit is at or before the moment.
fn is_past(now: Moment, period: ValidityPeriod) -> bool
    ensures { result ≡ is_past now period }
{
    match period {
        ValidityPeriod::NotPresent | ValidityPeriod::Relative(_) => false,
        ValidityPeriod::Absolute(limit) => limit.seconds() <= now.seconds(),
    }
}

fn wish_of(status_report_request: bool) -> Wish
    ensures { result ≡ wish_of status_report_request }
{
    if status_report_request {
        Wish::Always
    } else {
        Wish::Nothing
    }
}

// The handset that the destination names.
fn handset_at(destination: &Address) -> Msisdn
    requires valid { IsAddress destination.now }
    requires named { names_handset destination.now ≡ true }
    ensures { result ≡ destination.now.digits }
{
    match destination.handset() {
        Some(handset) => handset,
        None => unreachable!(),
    }
}

// The submission that the SUBMIT is.
fn submission_of(
    alloc: Global,
    from: Msisdn,
    now: Moment,
    submit: &Submit<'_>,
) -> Result<Submission, AllocError>
    requires valid { IsAddress submit.now.destination_address }
    requires named { names_handset submit.now.destination_address ≡ true }
    ensures { IfOk result (λ s. s ≡ submission_of from now submit.now) }
{
    let octets = submit.user_data.octets.as_slice();
    Ok(Submission {
        originator: Originator::Handset {
            message_reference: submit.message_reference,
        },
        source: Address::of_handset(from.digits()),
        handset: handset_at(&submit.destination_address),
        protocol_identifier: submit.protocol_identifier,
        reply_path: submit.reply_path,
        wish: wish_of(submit.status_report_request),
        rejects_duplicates: submit.reject_duplicates,
        limit: validity(submit.validity_period, now),
        due: now,
        priority: Priority::lowest(),
        text: Text::Single(SinglePart {
            header_indicator: submit.user_data_header_indicator,
            data_coding_scheme: submit.data_coding_scheme,
            length: submit.user_data.length,
            octets: Octets::copy_of(alloc, octets)?,
            key: header_key(submit.user_data_header_indicator, octets),
        }),
    })
}

// Whether an account has these digits for its address.
fn is_of_account(digits: &Digits, accounts: &[CentreAccount]) -> bool
    ensures { result ≡ is_of_account digits.now accounts.now }
{
    for account in accounts {
        if account.address.digits.as_slice() == digits.as_slice() {
            return true;
        }
    }
    false
}

#[tactic(auto, unfolding(crate::specs::HandsetIntake::from_submit))]
fn accepted(
    alloc: Global,
    accounts: &[CentreAccount],
    from: Msisdn,
    now: Moment,
    submit: &Submit<'_>,
) -> Result<Submission, SubmitError>
    requires { IsAddress submit.now.destination_address }
    ensures { AnswersIntake result (from_submit accounts.now from now submit.now) }
{
    if !submit.destination_address.names_handset() {
        return Err(SubmitError::Refused(SubmitRefusal::NoHandset));
    }
    if is_of_account(&submit.destination_address.digits, accounts) {
        return Err(SubmitError::Refused(SubmitRefusal::OfAccount));
    }
    if is_past(now, submit.validity_period) {
        return Err(SubmitError::Refused(SubmitRefusal::PastLimit));
    }
    let submission = submission_of(alloc, from, now, submit)?;
    Ok(submission)
}

/// The submission of what the handset sent in RP-DATA, or the first refusal. Refused are a TPDU that is
/// unreadable or no SUBMIT, a destination that is no handset, one that is an account's number, and a limit that is past.
///
/// Takes memory once, for the user data of what is accepted.
pub fn from_submit(
    alloc: Global,
    accounts: &[CentreAccount],
    from: Msisdn,
    now: Moment,
    tpdu: &[u8],
) -> Result<Submission, SubmitError>
    ensures { AnswersIntake result (from_read accounts.now from now (up_at InData tpdu.now)) }
{
    match read_up(tpdu, Carrier::InData) {
        Ok(Up::Submit(submit)) => accepted(alloc, accounts, from, now, &submit),
        Ok(Up::DeliverReport(_)) => Err(SubmitError::Refused(SubmitRefusal::WrongType)),
        Err(fault) => Err(SubmitError::Refused(SubmitRefusal::of_fault(fault))),
    }
}
