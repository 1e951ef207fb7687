//! The secrets of links, from their file.
use crate::run_fault::RunFault;
use sms_base::{Listed, Octets};
use smsc_cli::words::{FileFault, SecretWords, add_secret_lines};
use smsc_endpoint::{LinkAccess, LinkSecret};
use std::alloc::{AllocError, Global};
use std::{fs, io};

fn secret_of(alloc: Global, words: &SecretWords<'_>) -> Result<LinkSecret, AllocError> {
    Ok(LinkSecret {
        number: Octets::copy_of(alloc, words.number.as_bytes())?,
        secret: Octets::copy_of(alloc, words.secret.as_bytes())?,
    })
}

fn access_by(alloc: Global, words: &[SecretWords<'_>]) -> Result<LinkAccess, AllocError> {
    let mut secrets = Vec::new(alloc);
    for words in words {
        secrets.push(secret_of(alloc, words)?)?;
    }
    Ok(LinkAccess::Secrets(Listed::from_vec(secrets)))
}

fn lines_fault(fault: FileFault) -> RunFault {
    match fault {
        FileFault::BadLine(number) => RunFault::SecretLine(number),
        FileFault::NoMemory => RunFault::NoMemory,
    }
}

fn access_in(alloc: Global, file: &str) -> Result<LinkAccess, RunFault> {
    let mut words = Vec::new(alloc);
    add_secret_lines(&mut words, file).map_err(lines_fault)?;
    Ok(access_by(alloc, words.as_slice())?)
}

fn reading_fault(error: io::Error) -> RunFault {
    match error.kind() {
        io::ErrorKind::OutOfMemory => RunFault::NoMemory,
        io::ErrorKind::InvalidData => RunFault::SecretsNoText,
        _ => RunFault::NoSecrets(error),
    }
}

/// Who may have the link of a number: anyone where there is no file, else who gives the secret that the file has for it.
pub fn access_of(host: &HostRuntime, path: Option<&str>) -> Result<LinkAccess, RunFault> {
    let Some(path) = path else {
        return Ok(LinkAccess::Anyone);
    };
    match fs::read_to_string(host, path) {
        Ok(file) => access_in(host.alloc(), file.as_str()),
        Err(error) => Err(reading_fault(error)),
    }
}
