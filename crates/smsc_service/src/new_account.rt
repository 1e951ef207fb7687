//! An account that comes.
ghost use Rattle.std.specs.Prelude.{◌≡◌};

use sms_intake::CentreAccount;
use std::marker::Model;

/// An account that comes, as its errand has it.
#[derive(Drop)]
pub struct NewAccount<'a> {
    account: &'a CentreAccount,
}

impl<'a> Model for NewAccount<'a> {
    ghost use Rattle.sms_intake.specs.declared.submission.CentreAccount.{CentreAccount};

    ghost Value = { CentreAccount };

    ghost view = { λ n. n.account.now };
}

impl<'a> NewAccount<'a> {
    /// The account, lent.
    pub fn of(account: &'a CentreAccount) -> NewAccount<'a>
        ensures { result ≡ account.entry.now }
    {
        NewAccount { account }
    }

    /// The account.
    pub fn get(&self) -> &'a CentreAccount
        ensures { result.now ≡ self.now }
    {
        self.account
    }
}
