//! Accounts, with their names beside them.
ghost use Rattle.std.specs.Prelude.{◌≡◌, IfOk};
ghost use Rattle.std.specs.Arc.{arc_value};
ghost use Rattle.smsc_server.specs.serving.AccountNames.{begin_with, names_of};

use smpp_session::{Account, Accounts};
use sms_base::Octets;
use std::alloc::{AllocError, Global};
use std::sync::Arc;

/// Accounts that sessions share, and the names by which two such lists are compared.
#[derive(Drop)]
pub(crate) struct NamedList {
    pub(crate) accounts: Arc<Accounts>,
    names: Vec<Octets>,
    ghost same: { names.items ≡ names_of (arc_value accounts) },
}

fn names_in(alloc: Global, accounts: &[Account]) -> Result<Vec<Octets>, AllocError>
    ensures { IfOk result (λ names. names.items ≡ names_of accounts.now) }
{
    let mut names = Vec::new(alloc);
    for account in accounts {
        names.push(Octets::copy_of(alloc, account.name.as_slice())?)?;
    }
    Ok(names)
}

// Whether the first names are the others, in the same order.
fn begin(names: &[Octets], others: &[Octets]) -> bool
    ensures { result ≡ begin_with names.now others.now }
{
    match others {
        [] => true,
        [other, other_rest @ ..] => match names {
            [] => false,
            [first, rest @ ..] => {
                first.as_slice() == other.as_slice() && begin(rest, other_rest)
            }
        },
    }
}

impl NamedList {
    pub(crate) fn of(alloc: Global, accounts: Vec<Account>) -> Result<NamedList, AllocError>
        ensures { IfOk result (λ list. arc_value list.accounts ≡ accounts.items) }
    {
        let names = names_in(alloc, accounts.as_slice())?;
        let accounts = Arc::new(alloc, Accounts::from_vec(accounts))?;
        Ok(NamedList { accounts, names })
    }

    pub(crate) fn share(&self) -> Result<Arc<Accounts>, AllocError>
        ensures { IfOk result (λ accounts. arc_value accounts ≡ arc_value self.now.accounts) }
    {
        Ok(Arc::try_clone(&self.accounts)?)
    }

    pub(crate) fn begins_with(&self, other: &NamedList) -> bool
        ensures { result ≡ begin_with (names_of (arc_value self.now.accounts)) (names_of (arc_value other.now.accounts)) }
    {
        begin(self.names.as_slice(), other.names.as_slice())
    }
}
