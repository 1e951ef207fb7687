//! Sessions are bound (SMPP v3.4 4.1).
ghost use Rattle.std.specs.Prelude.{OnOk, Some};
ghost use Rattle.sms_centre_reports.specs.sessions.Awaited.{AreAwaited};
ghost use Rattle.sms_centre_spec.specs.Draft.{Draft, messages_in, reports_in};
ghost use Rattle.sms_centre_spec.specs.Sessions.{bind as bind_of, bound_as, unbind};
ghost use Rattle.sms_centre_draft.specs.CentreDraft.{Represents};

use crate::accounts::account_of;
use sms_centre_draft::CentreDraft;
use sms_intake::CentreAccount;
use std::alloc::AllocError;

// A session of that account is bound.
fn bind_to(
    draft: &mut CentreDraft<'_>,
    session: u32,
    account: &CentreAccount,
    receives: bool,
) -> Result<(), AllocError>
    ensures { (d : Draft) → Represents d draft.old → AreAwaited (messages_in d.store) (reports_in d.store) d.bindings.sessions
        → OnOk result (Represents (bound_as session receives (Some account.now) (unbind session d)) draft.new) }
{
    let name = account.name.as_slice();
    let now = draft.moment;
    draft
        .bindings
        .bind(&mut draft.reports, session, name, receives, now)?;
    Ok(())
}

/// A session of the account at that place is bound; one of its number that was bound before is bound no longer. If it takes
/// receipts, those of the account that wait for their minute are due now. Where no account is at that place, none is bound.
pub fn bind(
    draft: &mut CentreDraft<'_>,
    session: u32,
    account: u8,
    receives: bool,
) -> Result<(), AllocError>
    ensures { (d : Draft) → Represents d draft.old → AreAwaited (messages_in d.store) (reports_in d.store) d.bindings.sessions
        → OnOk result (Represents (bind_of session account receives d) draft.new) }
{
    match account_of(draft, account) {
        Some(account) => bind_to(draft, session, account, receives),
        None => draft.unbind(session),
    }
}
