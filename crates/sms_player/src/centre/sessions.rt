//! The sessions of a script's accounts.
ghost use Rattle.std.specs.Prelude.{◌≡◌, ◌≤◌, length, IfOk};
ghost use Rattle.sms_centre.specs.state.Recovering.{AreNew};
ghost use Rattle.sms_play.specs.PlayedEvent.{sessions_from};

use sms_centre::ReceiptSession;
use sms_intake::CentreAccount;
use sms_rows::table::Table;
use std::alloc::{AllocError, Global};

fn seats_of(alloc: Global, accounts: &[CentreAccount]) -> Result<Vec<ReceiptSession>, AllocError>
    requires { length accounts.now ≤ 32 }
    ensures { IfOk result (λ seats. seats.items ≡ sessions_from 0 accounts.now) }
{
    let mut seats = Vec::new(alloc);
    let mut place: u32 = 0;
    for account in accounts {
        seats.push(ReceiptSession::new(alloc, place, account.name.as_slice(), true)?)?;
        place += 1;
    }
    Ok(seats)
}

/// A session of each account, under the account's place.
pub(crate) fn sessions_of(
    alloc: Global,
    accounts: &[CentreAccount],
) -> Result<Table<ReceiptSession>, AllocError>
    requires { length accounts.now ≤ 32 }
    ensures sessions { IfOk result (λ sessions. sessions.rows ≡ sessions_from 0 accounts.now) }
    ensures new { IfOk result (λ sessions. AreNew sessions.rows) }
{
    let seats = seats_of(alloc, accounts)?;
    Ok(Table::from_vec(seats))
}
