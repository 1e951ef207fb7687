//! Copies of what is handed in.
ghost use Rattle.std.specs.Prelude.{◌≡◌, IfOk};
ghost use Rattle.sms_centre_spec.specs.octets.OctetsAt.{kind_octets};

use crate::Setup;
use sms_base::{Listed, Octets};
use sms_centre_rows::reports::ReportKind;
use sms_intake::CentreAccount;
use std::alloc::{AllocError, Global};

/// The octets, in memory of their own.
pub fn copy_of_octets(alloc: Global, octets: &Octets) -> Result<Octets, AllocError>
    ensures { IfOk result (λ copy. copy ≡ octets.now) }
{
    Octets::copy_of(alloc, octets.as_slice())
}

/// What the report carries, in memory of its own, if it carries octets.
pub fn copy_of_kind_octets(alloc: Global, kind: &ReportKind) -> Result<Option<Octets>, AllocError>
    ensures { IfOk result (λ octets. octets ≡ kind_octets kind.now) }
{
    match kind {
        ReportKind::Status { tpdu, .. } => {
            let octets = copy_of_octets(alloc, tpdu)?;
            Ok(Some(octets))
        }
        ReportKind::Receipt | ReportKind::Unsent => Ok(None),
    }
}

/// The account, in memory of its own.
pub fn copy_of_account(alloc: Global, account: &CentreAccount) -> Result<CentreAccount, AllocError>
    ensures { IfOk result (λ copy. copy ≡ account.now) }
{
    let name = copy_of_octets(alloc, &account.name)?;
    let sources = Vec::from_slice(alloc, account.sources.as_slice())?;
    Ok(CentreAccount {
        name,
        address: account.address,
        sources: Listed::from_vec(sources),
    })
}

/// The accounts, in memory of their own.
pub fn copy_of_accounts(
    alloc: Global,
    accounts: &[CentreAccount],
) -> Result<Vec<CentreAccount>, AllocError>
    ensures { IfOk result (λ copies. copies.items ≡ accounts.now) }
{
    let mut copies = Vec::new(alloc);
    for account in accounts {
        copies.push(copy_of_account(alloc, account)?)?;
    }
    Ok(copies)
}

/// The setup, in memory of its own.
pub fn copy_of_setup(alloc: Global, setup: &Setup) -> Result<Setup, AllocError>
    ensures { IfOk result (λ copy. copy ≡ setup.now) }
{
    let accounts = copy_of_accounts(alloc, setup.accounts.as_slice())?;
    Ok(Setup {
        centre: setup.centre,
        start: setup.start,
        first: setup.first,
        accounts: Listed::from_vec(accounts),
    })
}
