//! What the sessions of an account did, also those that have ended.
use crate::rows::holds;
use smsc_loop::Counts;
use smsc_observer::{AccountCounts, AccountTotals};
use std::test::Fail;

fn counts(submits: u64, receipts: u64) -> Counts {
    Counts {
        requests: submits,
        submits,
        receipts,
        received: 0,
        sent: 0,
    }
}

fn is_of(counts: &AccountCounts, account: u8, submits: u64, receipts: u64) -> bool {
    counts.account == account && counts.submits == submits && counts.receipts == receipts
}

// Two sessions of account 1 at two seats, of which one ends, and one of account 4 at the seat that it left. A connection
// that is not bound counts for nobody.
fn sessions_do(totals: &AccountTotals) {
    totals.bind(3, 1);
    totals.watch(3, &counts(5, 2));
    totals.bind(4, 1);
    totals.watch(4, &counts(100, 0));
    totals.watch(3, &counts(6, 4));
    totals.leave(3, &counts(7, 4));
    totals.watch(3, &counts(50, 50));
    totals.leave(3, &counts(50, 50));
    totals.bind(3, 4);
    totals.watch(3, &counts(1, 0));
}

#[test]
fn totals_outlive_sessions(rt: HostRuntime) -> Result<(), Fail> {
    let totals = AccountTotals::new(rt.alloc())?;
    holds(totals.all(rt.alloc())?.is_empty(), "nothing was done")?;
    sessions_do(&totals);
    let all = totals.all(rt.alloc())?;
    match all.as_slice() {
        [first, second] => holds(
            is_of(first, 1, 107, 4) && is_of(second, 4, 1, 0),
            "both accounts",
        ),
        _ => Err(Fail::new("two accounts")),
    }
}
