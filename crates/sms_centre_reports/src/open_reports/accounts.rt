//! The open receipts of accounts.
ghost use Rattle.std.specs.Prelude.{◌≡◌, [], ◌∷◌, IfOk};
ghost use Rattle.sms_centre_reports.specs.open_reports.OpenReports.{receipts_at};
ghost use Rattle.sms_centre_reports.specs.open_reports.Updates.{with_receipt};
ghost use Rattle.sms_rows.specs.index.First.{first_such, is_ahead_from, is_past_from};
ghost use Rattle.sms_centre_reports.specs.open_reports.Entries.{receipt_due, receipt_key};

use crate::open_reports::entry::ReceiptEntry;
use sms_base::{Moment, Octets};
use sms_rows::index::Index;
use sms_rows::table::Key;
use std::alloc::{AllocError, Global};
use std::marker::Model;
use std::sync::Arc;

/// Accounts with their open receipts, which copies share.
#[cycle(accounts)]
#[derive(Drop)]
pub(crate) struct ReceiptsByAccount {
    first: Option<Arc<AccountReceipts>>,
}

// An account, and all behind it.
#[cycle(accounts)]
#[derive(Drop)]
pub(crate) struct AccountReceipts {
    pub(crate) name: Arc<Octets>,
    pub(crate) receipts: Index<ReceiptEntry>,
    pub(crate) next: ReceiptsByAccount,
}

impl Model for ReceiptsByAccount {
    ghost use Rattle.std.specs.Prelude.{List, length};
    ghost use Rattle.sms_centre_reports.specs.open_reports.OpenReports.{AccountOf};

    ghost Value = { List AccountOf };

    ghost use Rattle.sms_centre_reports.specs.open_reports.AccountList.{accounts_of};

    ghost view = { λ a. accounts_of a.first };

    ghost size = { length };

    ghost use Rattle.std.proofs.Common.{arith};

    ghost size_decreases = { λ a h. Prim.grind arith };
}

impl ReceiptsByAccount {
    pub(crate) fn new() -> ReceiptsByAccount
        ensures { result ≡ [] }
    {
        ReceiptsByAccount { first: None }
    }

    /// A copy that shares all accounts.
    pub(crate) fn share(&self) -> Result<ReceiptsByAccount, AllocError>
        ensures { IfOk result (λ copy. copy ≡ self.now) }
    {
        match &self.first {
            None => Ok(ReceiptsByAccount { first: None }),
            Some(account) => {
                let account = Arc::try_clone(account)?;
                Ok(ReceiptsByAccount {
                    first: Some(account),
                })
            }
        }
    }

    /// The first receipt of the account from that place on that is due.
    pub(crate) fn first_past(&self, name: &[u8], first: Key, now: Moment) -> Option<ReceiptEntry>
        ensures { result ≡ first_such (is_past_from receipt_key receipt_due first now) (receipts_at name.now self.now) }
    {
        let Some(account) = &self.first else {
            return None;
        };
        let account: &AccountReceipts = account;
        if account.name.as_slice() == name {
            account.receipts.first_past(first, now)
        } else {
            account.next.first_past(name, first, now)
        }
    }

    /// The first receipt of the account from that place on that isn't due yet.
    pub(crate) fn first_ahead(&self, name: &[u8], first: Key, now: Moment) -> Option<ReceiptEntry>
        ensures { result ≡ first_such (is_ahead_from receipt_key receipt_due first now) (receipts_at name.now self.now) }
    {
        let Some(account) = &self.first else {
            return None;
        };
        let account: &AccountReceipts = account;
        if account.name.as_slice() == name {
            account.receipts.first_ahead(first, now)
        } else {
            account.next.first_ahead(name, first, now)
        }
    }

    /// The accounts where the receipts of the account have that one, or nothing, under the place.
    pub(crate) fn with(
        &self,
        alloc: Global,
        name: &[u8],
        place: u64,
        entry: Option<ReceiptEntry>,
    ) -> Result<ReceiptsByAccount, AllocError>
        ensures { IfOk result (λ accounts. accounts ≡ with_receipt name.now place entry self.now) }
    {
        let Some(account) = &self.first else {
            return alone(alloc, name, entry);
        };
        let account: &AccountReceipts = account;
        let mut receipts = account.receipts.share()?;
        if account.name.as_slice() == name {
            receipts.set(Key::of(place), entry)?;
            let next = account.next.share()?;
            return in_front(alloc, &account.name, receipts, next);
        }
        let next = account.next.with(alloc, name, place, entry)?;
        in_front(alloc, &account.name, receipts, next)
    }
}

// The account with that receipt alone, or no account.
fn alone(
    alloc: Global,
    name: &[u8],
    entry: Option<ReceiptEntry>,
) -> Result<ReceiptsByAccount, AllocError>
    ensures { IfOk result (λ accounts. accounts ≡ with_receipt name.now 0 entry []) }
{
    let Some(entry) = entry else {
        return Ok(ReceiptsByAccount::new());
    };
    let name = Octets::copy_of(alloc, name)?;
    let name = Arc::new(alloc, name)?;
    let mut receipts = Index::new(alloc);
    receipts.put(entry)?;
    in_front(alloc, &name, receipts, ReceiptsByAccount::new())
}

// The account before all others.
fn in_front(
    alloc: Global,
    name: &Arc<Octets>,
    receipts: Index<ReceiptEntry>,
    next: ReceiptsByAccount,
) -> Result<ReceiptsByAccount, AllocError>
    ensures { IfOk result (λ accounts. accounts ≡ record { name = name.now.value; receipts = receipts } ∷ next) }
{
    let name = Arc::try_clone(name)?;
    let account = Arc::new(
        alloc,
        AccountReceipts {
            name,
            receipts,
            next,
        },
    )?;
    Ok(ReceiptsByAccount {
        first: Some(account),
    })
}
