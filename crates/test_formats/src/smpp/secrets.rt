//! No type that holds a password shows it.
use crate::rows::{hides, holds};
use crate::smpp::exchanges::BIND;
use crate::smpp::sessions::{Given, account, accounts, feeds, session};
use smpp_session::Call;
use sms_base::OctetView;
use std::alloc::Global;
use std::test::Fail;

// How the octets app1 are printed.
const NAME: &str = "97, 112, 112, 49";

fn account_hides(alloc: Global) -> bool {
    match account(alloc) {
        Ok(account) => hides(alloc, &account, NAME),
        Err(_) => false,
    }
}

fn accounts_hide(alloc: Global) -> bool {
    match accounts(alloc) {
        Ok(accounts) => hides(alloc, &*accounts, NAME),
        Err(_) => false,
    }
}

// A bind whose last octet is missing, so that the password waits in the buffer.
fn session_hides(alloc: Global) -> bool {
    match session(alloc) {
        Ok(mut session) => {
            feeds(&mut session, &BIND[..32], &Given::Nothing)
                && hides(alloc, &session, "waiting_octets: 32")
        }
        Err(_) => false,
    }
}

#[test]
fn accounts_calls_and_sessions_hide_the_password(rt: HostRuntime) -> Result<(), Fail> {
    holds(account_hides(rt.alloc()), "an account")?;
    holds(accounts_hide(rt.alloc()), "accounts")?;
    let call = Call::Feed(OctetView::of(&BIND));
    holds(hides(rt.alloc(), &call, "Feed(33 octets)"), "a call")?;
    holds(session_hides(rt.alloc()), "a session")
}
