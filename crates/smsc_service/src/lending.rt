//! A service that is lent.
ghost use Rattle.std.specs.Prelude.{◌≡◌, IfOk};
ghost use Rattle.std.specs.Fn.{FnOnceReturnsAtMut};
ghost use Rattle.sms_rows.specs.keep.StoreOutcome.{IfHeld, WasHonest};
ghost use Rattle.sms_centre_spec.specs.declared.rows.Rows.{Rows as RowsOf};
ghost use Rattle.smsc_service.specs.Accounts.{bare};
ghost use Rattle.smsc_service.specs.Seats.{nobody};
ghost use Rattle.smsc_service.specs.Serving.{restarted};
ghost use Rattle.smsc_service.specs.InService.{IsServedBy, archive_in, store_in};
ghost use Rattle.smsc_service.specs.Sparing.{kept_by};

use crate::cutoff::Cutoff;
use crate::errands::{Errands, Forgetting};
use crate::link_board::LinkBoard;
use crate::order_desk::OrderDesk;
use crate::service::Service;
use crate::start_error::StartError;
use sms_centre::Archive;
use sms_centre_spec::bodies::CentreStore;
use sms_intake::CentreAccount;
use std::alloc::Global;
use std::sync::Arc;

// One share more.
fn share_of<T>(shared: &Arc<T>) -> Result<Arc<T>, StartError> {
    match Arc::try_clone(shared) {
        Ok(share) => Ok(share),
        Err(_) => Err(StartError::NoMemory),
    }
}

// One more share of the board, if there is one.
fn share_of_board(board: Option<&Arc<LinkBoard>>) -> Result<Option<Arc<LinkBoard>>, StartError> {
    match board {
        Some(board) => Ok(Some(share_of(board)?)),
        None => Ok(None),
    }
}

// Lends the service to the work, and gives what the work gives, and the keep and the archive that the service has then.
fn lend_service<K: CentreStore + Drop, A: Archive + Drop, R, W: FnOnce(&mut Service<K, A>) -> R>(
    service: Service<K, A>,
    work: W,
) -> (R, K, A)
    requires { W.IsAlwaysCallable work }
    ensures { (left : _) × FnOnceReturnsAtMut W.FnOnce work service result.0 left × (result.1 ≡ store_in left) × (result.2 ≡ archive_in left) }
{
    let mut service = service;
    let given = work(&mut service);
    let (keep, archive) = service.into_parts();
    (given, keep, archive)
}

/// Starts a service with the rows of a keep and these accounts, with nobody at any seat, and lends it to the work. The keep was opened without
/// accounts. Gives what the work gives, and the keep and the archive back. Who calls this owns no service. Where there is a board, the service
/// puts on it how links are. Behind the cutoff it begins nothing. It does what is ordered at the desk, and forgets what it is to forget.
///
/// # Errors
/// As `Service::start`. The work is not done then, and the keep and the archive are dropped.
pub fn serve_with<K: CentreStore + Drop, A: Archive + Drop, R, W: FnOnce(&mut Service<K, A>) -> R>(
    alloc: Global,
    keep: K,
    accounts: Vec<CentreAccount>,
    board: Option<&Arc<LinkBoard>>,
    cutoff: &Arc<Cutoff>,
    desk: &Arc<OrderDesk>,
    forgetting: Forgetting<A>,
    work: W,
) -> Result<(R, K, A), StartError>
    requires { W.IsAlwaysCallable work }
    // What is given is what the work gives of a service on the rows of the keep, with the accounts, and the keep and the archive as the work left them.
    // The service keeps what has ended for as many seconds as it is told.
    ensures given { IfOk result (λ given. (lent : _) × (left : _)
        × ((rows : RowsOf) → rows.setup.accounts ≡ accounts.items
        → IfHeld (bare rows) (K.state keep) (K.state (store_in lent)) (IsServedBy K.state lent (restarted rows nobody)))
        × WasHonest (K.state keep) (K.state (store_in lent)) × FnOnceReturnsAtMut W.FnOnce work lent given.0 left × (given.1 ≡ store_in left)
        × (given.2 ≡ archive_in left) × (kept_by lent ≡ forgetting.keep)) }
{
    let board = share_of_board(board)?;
    let cutoff = share_of(cutoff)?;
    let errands = Errands::new(share_of(desk)?, forgetting);
    let service = Service::start(alloc, keep, accounts, board, cutoff, errands)?;
    Ok(lend_service(service, work))
}
