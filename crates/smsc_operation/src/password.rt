//! What is written of a password in a table of an account: a salt, and what SHA-256 makes of it and the password.
use crate::opening::seed_of;
use crate::run_fault::RunFault;
use smpp_session::digest_of;
use sms_base::Octets;
use std::io::{Print, Read};

// A bind has so many octets of a password (SMPP v3.4 5.2.2).
const MOST_OCTETS: usize = 8;

// Everything of standard input, up to a line and some more.
fn read_input(host: &HostRuntime) -> Result<Octets, RunFault> {
    let mut stdin = host.stdin();
    let mut octets = Octets::new(host.alloc());
    let mut room = [0u8; 64];
    for _ in 0..64 {
        match stdin.read(&mut room) {
            Ok(0) => return Ok(octets),
            Ok(count) => octets.append(&room[..count])?,
            Err(error) => return Err(RunFault::Input(error)),
        }
    }
    Ok(octets)
}

// The octets without the end of their line.
fn line_of(octets: &[u8]) -> &[u8] {
    match octets {
        [line @ .., b'\r', b'\n'] | [line @ .., b'\n'] => line,
        line => line,
    }
}

// Two random numbers, in hexadecimal digits.
fn salt_of(host: &HostRuntime) -> Result<String, RunFault> {
    let (high, low) = (seed_of(host)?, seed_of(host)?);
    Ok(format!(in host.alloc(); "{high:016x}{low:016x}")?)
}

fn text_of(host: &HostRuntime, password: &[u8]) -> Result<String, RunFault> {
    let salt = salt_of(host)?;
    let digest = digest_of(salt.as_str().as_bytes(), password);
    let hash = hex::encode(host.alloc(), digest.as_slice())?;
    Ok(format!(in host.alloc(); "salt = \"{salt}\"\nhash = \"{hash}\"\n")?)
}

/// Prints the salt and the hash of the password that is the only line of standard input: up to 8 ASCII characters.
pub fn print_password(host: &HostRuntime) -> Result<(), RunFault> {
    let input = read_input(host)?;
    let password = line_of(input.as_slice());
    if password.len() > MOST_OCTETS || !password.is_ascii() {
        return Err(RunFault::NoPassword);
    }
    let text = text_of(host, password)?;
    print!(host; "{text}").map_err(|_| RunFault::Output)
}
