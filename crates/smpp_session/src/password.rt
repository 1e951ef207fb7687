//! Passwords, as they are or as what was made of them.
ghost use Rattle.std.specs.Prelude.{◌≡◌, ◌++◌};
ghost use Rattle.sha2.specs.Sha256.{sha256};
ghost use Rattle.smpp_session.specs.Logins.{is_own as is_own_of};

use sha2::{Digest, Sha256};
use sms_base::Octets;
use std::fmt;

/// The password of an account.
#[derive(Drop)]
pub enum Password {
    /// The password itself, up to 8 octets.
    Plain(Octets),
    /// What SHA-256 (FIPS 180-4) makes of a salt and the password behind it.
    Salted {
        /// Octets that no other account has.
        salt: Octets,
        /// The 32 octets that were made.
        digest: [u8; 32],
    },
}

// It is a secret, so it is not shown.
impl fmt::Debug for Password {
    fn fmt<W: fmt::Write>(&self, f: &mut fmt::Formatter<W>) -> fmt::Result {
        f.debug_struct("Password").finish_non_exhaustive()
    }
}

/// What SHA-256 makes of the salt and the password behind it.
pub fn digest_of(salt: &[u8], password: &[u8]) -> [u8; 32]
    ensures { result ≡ sha256 (salt.now ++ password.now) }
{
    let mut hasher = Sha256::new();
    hasher.update(salt);
    hasher.update(password);
    hasher.finalize()
}

impl Password {
    // Whether it is the password of these octets.
    pub(crate) fn is_own(&self, password: &[u8]) -> bool
        ensures { result ≡ is_own_of self.now password.now }
    {
        match self {
            Password::Plain(own) => own.as_slice() == password,
            Password::Salted { salt, digest } => {
                digest_of(salt.as_slice(), password).as_slice() == digest.as_slice()
            }
        }
    }
}
