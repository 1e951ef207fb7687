//! The secret of a handset's links, from its file.
use crate::failure::Failure;
use smsc_cli::words::secret_in;
use std::alloc::Global;
use std::fs;
use std::io::{self, Print};
use std::os::unix::fs::MetadataExt;

// What a file allows to every user.
const EVERYBODY: u32 = 0o007;

fn owned(alloc: Global, text: &str) -> Result<String, Failure> {
    let mut all = String::new(alloc);
    all.push_str(text).map_err(|_| Failure::NoMemory)?;
    Ok(all)
}

fn secret_of(alloc: Global, file: &str) -> Result<String, Failure> {
    match secret_in(file) {
        Some(secret) => owned(alloc, secret),
        None => Err(Failure::NoSecret),
    }
}

fn reading_failure(error: io::Error) -> Failure {
    match error.kind() {
        io::ErrorKind::OutOfMemory => Failure::NoMemory,
        io::ErrorKind::InvalidData => Failure::NoSecret,
        _ => Failure::Secret(error),
    }
}

// Warns where every user may read or write the file.
fn warn(rt: &HostRuntime, path: &str) -> Result<(), Failure> {
    let Ok(found) = fs::metadata(rt, path) else {
        return Ok(());
    };
    let mode = found.mode() & 0o777;
    if mode & EVERYBODY == 0 {
        return Ok(());
    }
    eprint!(rt; "handset: every user may read the secret (mode {mode:o})\n").map_err(
        Failure::Standard,
    )
}

/// The secret in the only line of the file; none where there is no file.
pub(crate) fn read_secret(rt: &HostRuntime, path: Option<&str>) -> Result<Option<String>, Failure> {
    let Some(path) = path else {
        return Ok(None);
    };
    match fs::read_to_string(rt, path) {
        Ok(file) => {
            let secret = secret_of(rt.alloc(), file.as_str())?;
            warn(rt, path)?;
            Ok(Some(secret))
        }
        Err(error) => Err(reading_failure(error)),
    }
}

/// The octets of the secret.
pub(crate) fn octets_of(secret: &Option<String>) -> Option<&[u8]> {
    match secret {
        Some(secret) => Some(secret.as_bytes()),
        None => None,
    }
}
