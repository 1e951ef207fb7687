//! Why words are none.
ghost use Rattle.std.specs.Prelude.{◌≡◌, ◌≢◌};
ghost use Rattle.clap.specs.Words.{kind_of};
ghost use Rattle.clap.specs.declared.error.kind.ErrorKind.TheVariants.{OutOfMemory};
ghost use Rattle.smsc_cli.specs.declared.words.fault.WordsFault.TheVariants.{BadWords, NoMemory};

use clap::Error as ClapError;
use clap::error::ErrorKind;
use thiserror::Error;

/// Why words are none.
#[derive(Clone, Copy, Debug, PartialEq, Eq, Error)]
pub enum WordsFault {
    /// A word is missing, too many or can't be read.
    #[error("the words are none that it knows")]
    BadWords,
    /// There was no memory.
    #[error("out of memory")]
    NoMemory,
}

/// What clap's error says.
pub(crate) fn fault_of(error: &ClapError) -> WordsFault
    ensures memory { kind_of error.now ≡ OutOfMemory → result ≡ NoMemory }
    ensures bad { kind_of error.now ≢ OutOfMemory → result ≡ BadWords }
{
    if error.kind() == ErrorKind::OutOfMemory {
        WordsFault::NoMemory
    } else {
        WordsFault::BadWords
    }
}
