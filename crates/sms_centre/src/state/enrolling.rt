//! An account that comes while a centre runs.
ghost use Rattle.std.specs.Prelude.{◌≡◌, OnErr, OnOk, IfOk, take};
ghost use Rattle.sms_centre.specs.Enrolling.{accounts_of, accounts_with, state_with};

use crate::state::centre_state::CentreState;
use sms_base::Listed;
use sms_centre_rows::conditions::is_address;
use sms_centre_spec::octets::{copy_of_account, copy_of_accounts};
use sms_intake::CentreAccount;
use std::alloc::{AllocError, Global};

// The first so many, or all where there are fewer.
fn first_of(accounts: &[CentreAccount], count: usize) -> &[CentreAccount]
    ensures { result.now ≡ take count accounts.now }
{
    match accounts.get(..count) {
        Some(first) => first,
        None => accounts,
    }
}

// Puts a copy of the account at the end, if a unit can carry its address.
fn add(
    alloc: Global,
    accounts: &mut Listed<CentreAccount>,
    account: &CentreAccount,
) -> Result<(), AllocError>
    ensures added { OnOk result (accounts.new ≡ accounts_with account.now accounts.old) }
    ensures same { OnErr result (accounts.new ≡ accounts.old) }
{
    if !is_address(&account.address) {
        return Ok(());
    }
    match copy_of_account(alloc, account) {
        Ok(copy) => accounts.push(copy),
        Err(error) => Err(error),
    }
}

impl CentreState {
    /// The account is the last one from now on, and those before it keep their places. One whose address no unit can carry does not
    /// come.
    ///
    /// # Errors
    /// A growth was refused: the centre stays unchanged.
    pub fn enrol(&mut self, alloc: Global, account: &CentreAccount) -> Result<(), AllocError>
        ensures centre_state { OnOk result (self.new ≡ state_with account.now self.old) }
        ensures same { OnErr result (self.new ≡ self.old) }
    {
        add(alloc, &mut self.setup.accounts, account)
    }

    /// The first so many accounts, or all where there are fewer, in memory of their own.
    pub fn first_accounts(
        &self,
        alloc: Global,
        count: usize,
    ) -> Result<Vec<CentreAccount>, AllocError>
        ensures { IfOk result (λ first. first.items ≡ take count (accounts_of self.now)) }
    {
        copy_of_accounts(alloc, first_of(self.setup.accounts.as_slice(), count))
    }
}
