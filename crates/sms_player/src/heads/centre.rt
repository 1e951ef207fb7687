//! The setup of a head's centre.
ghost use Rattle.std.specs.Prelude.{◌≡◌, ◌≤◌, [], length, IfOk, true};
ghost use Rattle.sms_base.specs.Address.{IsAddress};
ghost use Rattle.sms_base.specs.HandsetNumber.{own_address};
ghost use Rattle.sms_centre_spec.specs.SoundRows.{IsSetup};
ghost use Rattle.sms_play.specs.Setups.{accounts_of as accounts_of_head, are_accounts as are_accounts_of, can_be_played, centre_setup as centre_setup_of};
ghost use Rattle.sms_play.specs.Setups.{is_number as is_number_of};

use sms_base::{Address, Listed, Moment, Octets, digits_of};
use sms_centre_spec::Setup as CentreSetup;
use sms_intake::CentreAccount;
use sms_script::{AccountSetup, Setup};
use std::alloc::{AllocError, Global};

fn account_of(alloc: Global, account: &AccountSetup<'_>) -> Result<CentreAccount, AllocError>
    requires { length account.now.number ≤ 20 }
    ensures { IfOk result (λ made. made ≡ record { name = account.now.name; address = own_address account.now.number; sources = [] }) }
{
    let name = Octets::copy_of(alloc, account.name.as_slice())?;
    Ok(CentreAccount {
        name,
        address: Address::of_handset(digits_of(account.number.as_slice())),
        sources: Listed::new(alloc),
    })
}

fn accounts_of(
    alloc: Global,
    accounts: &[AccountSetup<'_>],
) -> Result<Listed<CentreAccount>, AllocError>
    requires { are_accounts_of accounts.now ≡ true }
    ensures { IfOk result (λ made. made ≡ accounts_of_head accounts.now) }
{
    let mut all = Listed::new(alloc);
    for account in accounts {
        all.push(account_of(alloc, account)?)?;
    }
    Ok(all)
}

/// The centre's address.
pub(crate) fn centre_of(setup: &Setup<'_>) -> Address
    requires { is_number_of setup.now.centre ≡ true }
    ensures centre { result ≡ own_address setup.now.centre }
    ensures address { IsAddress result }
{
    Address::of_handset(digits_of(setup.centre.as_slice()))
}

/// The setup of the centre.
///
/// # Errors
/// A growth was refused.
pub fn centre_setup(
    alloc: Global,
    setup: &Setup<'_>,
    start: Moment,
) -> Result<CentreSetup, AllocError>
    requires setup { can_be_played setup.now ≡ true }
    requires start { start ≡ setup.now.start }
    ensures setup { IfOk result (λ made. made ≡ centre_setup_of setup.now) }
    ensures sound { IfOk result IsSetup }
    ensures few { IfOk result (λ made. length made.accounts ≤ 32) }
{
    let accounts = accounts_of(alloc, setup.accounts.as_slice())?;
    let centre = centre_of(setup);
    Ok(CentreSetup {
        centre,
        start,
        first: 1,
        accounts,
    })
}
