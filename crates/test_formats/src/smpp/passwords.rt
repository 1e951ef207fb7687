//! Binds of an account of whose password a digest is kept.
use crate::smpp::exchanges::{BIND, BIND_ANSWER};
use crate::smpp::sessions::{Course, Given, Step, WRONG_BIND, WRONG_PASSWORD};
use smpp_pdu::CommandStatus;
use smpp_session::{Account, Accounts, Password, Session};
use sms_base::Octets;
use std::alloc::{AllocError, Global};
use std::sync::Arc;

// SHA-256 of `grainsecret`, by Python's hashlib.
const DIGEST: [u8; 32] = [
    0x29, 0x52, 0x7C, 0xC3, 0x3D, 0xC6, 0x41, 0x17, 0x16, 0xA6, 0x45, 0x0A, 0xCA, 0x3B, 0x24, 0x43,
    0x2C, 0xF1, 0x61, 0xEC, 0x86, 0x71, 0x44, 0x71, 0xAC, 0x05, 0x5E, 0xCC, 0x38, 0x0B, 0x6C, 0xDC,
];

// A session where app1 may bind, whose password is secret.
pub(crate) fn salted(alloc: Global) -> Result<Session, AllocError> {
    let name = Octets::copy_of(alloc, b"app1")?;
    let salt = Octets::copy_of(alloc, b"grain")?;
    let password = Password::Salted {
        salt,
        digest: DIGEST,
    };
    let accounts = vec![in alloc; Account { name, password }]?;
    Ok(Session::new(alloc, Arc::new(alloc, Accounts::from_vec(accounts))?))
}

pub(crate) const SALTED: Course = (
    "a salted password binds and no other",
    &[
        Step::Feeds(
            &WRONG_BIND,
            Given::BindRefused(&WRONG_PASSWORD, CommandStatus::ESME_RINVPASWD, b"app1"),
        ),
        Step::Feeds(&BIND, Given::Bind(&BIND_ANSWER)),
    ],
);
