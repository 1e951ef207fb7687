//! The accounts of applications.
ghost use Rattle.std.specs.Prelude.{◌≡◌, ◌&&◌, option_copied};
ghost use Rattle.sms_centre_spec.specs.Requests.{account_at as account_at_of, is_from as is_from_of, is_source as is_source_of};
ghost use Rattle.sms_centre_rows.specs.reports.Receipts.{is_account as is_account_of};

use sms_base::{Address, Originator};
use sms_centre_draft::CentreDraft;
use sms_centre_rows::conditions::is_same_address;
use sms_centre_rows::messages::MessageRow;
use sms_centre_spec::Setup;
use sms_intake::CentreAccount;

/// The account at that place of the setup, from place 0 on.
pub fn account_at(setup: &Setup, place: u8) -> Option<&CentreAccount>
    ensures { option_copied result ≡ account_at_of place setup.now.accounts }
{
    let accounts = setup.accounts.as_slice();
    let place = usize::from(place);
    if place >= accounts.len() {
        return None;
    }
    Some(&accounts[place])
}

/// The account at that place of the centre's setup.
pub(crate) fn account_of<'a>(draft: &CentreDraft<'a>, place: u8) -> Option<&'a CentreAccount>
    ensures { option_copied result ≡ account_at_of place draft.now.setup.accounts }
{
    account_at(draft.setup, place)
}

fn is_account(name: &[u8], originator: &Originator) -> bool
    ensures { result ≡ is_account_of name.now originator.now }
{
    match originator {
        Originator::Application { account } => account.as_slice() == name,
        Originator::Handset { .. } => false,
    }
}

/// Whether the source that is named is that address.
pub(crate) fn is_source(source: &Option<Address>, own: &Address) -> bool
    ensures { result ≡ is_source_of source.now own.now }
{
    match source {
        Some(source) => is_same_address(source, own),
        None => false,
    }
}

fn is_from(source: &Option<Address>, message: &MessageRow) -> bool
    ensures { result ≡ is_from_of source.now message.now }
{
    is_source(source, &message.source)
}

/// Whether it is a message of the account with that name, from that source.
pub(crate) fn is_own(name: &[u8], source: &Option<Address>, message: &MessageRow) -> bool
    ensures { result ≡ (is_account_of name.now message.now.originator && is_from_of source.now message.now) }
{
    is_account(name, &message.originator) && is_from(source, message)
}
