//! Whether a centre can start with a setup, and moments and originators of rows.
ghost use Rattle.std.specs.Prelude.{◌≡◌};
ghost use Rattle.std.specs.List.{list_all};
ghost use Rattle.sms_centre_spec.specs.conditions.RowsTest.{has_report_address as has_report_address_of, has_address, is_dated, is_made};
ghost use Rattle.sms_centre_spec.specs.conditions.RowsTest.{is_moment as is_moment_of, is_setup as is_setup_of, is_submitted, is_reportable};

use crate::Setup;
use sms_base::{Address, Moment, Originator};
use sms_centre_rows::conditions::{is_address, is_handset};
use sms_centre_rows::messages::MessageRow;
use sms_centre_rows::reports::ReportRow;
use sms_centre_rows::waiting::ReferenceRow;
use sms_intake::CentreAccount;

fn is_moment(moment: Moment) -> bool
    ensures { result ≡ is_moment_of moment }
{
    let seconds = moment.seconds();
    946_684_800 <= seconds && seconds <= 4_102_444_799
}

fn have_addresses(accounts: &[CentreAccount]) -> bool
    ensures { result ≡ list_all has_address accounts.now }
{
    accounts.iter().all(|account| is_address(&account.address))
}

/// Whether the addresses of the setup can be written, and its first moment is one of the years 2000 to 2099.
pub fn is_setup(setup: &Setup) -> bool
    ensures { result ≡ is_setup_of setup.now }
{
    (is_address(&setup.centre) && is_moment(setup.start))
        && have_addresses(setup.accounts.as_slice())
}

/// Whether each message was submitted at a moment of the years 2000 to 2099.
pub(crate) fn are_submitted(messages: &[MessageRow]) -> bool
    ensures { result ≡ list_all is_submitted messages.now }
{
    messages.iter().all(|message| is_moment(message.submitted))
}

/// Whether each reference was given at such a moment.
pub(crate) fn are_dated(references: &[ReferenceRow]) -> bool
    ensures { result ≡ list_all is_dated references.now }
{
    references.iter().all(|reference| is_moment(reference.last))
}

/// Whether each report was made at such a moment.
pub(crate) fn are_made(reports: &[ReportRow]) -> bool
    ensures { result ≡ list_all is_made reports.now }
{
    reports.iter().all(|report| is_moment(report.made))
}

fn has_report_address(originator: &Originator, source: &Address) -> bool
    ensures { result ≡ has_report_address_of originator.now source.now }
{
    match originator {
        Originator::Application { .. } => true,
        Originator::Handset { .. } => is_handset(&source.digits),
    }
}

/// Whether each message of a handset is from a number to which a status report can be sent.
pub(crate) fn have_report_addresses(messages: &[MessageRow]) -> bool
    ensures { result ≡ list_all is_reportable messages.now }
{
    messages.iter().all(|message| has_report_address(&message.originator, &message.source))
}
