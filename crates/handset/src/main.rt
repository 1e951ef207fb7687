//! A handset: its owner's acts and the centre's frames, over a link; or a look at its store.
//!
//! It gives a socket, a clock and a file to `run_handset`, which does the work.
//!
//! - `clock`: the clock of this machine
//! - `failure`: why the work was not done, as a line and a status
//! - `looking`: a look at a store, which changes nothing
//! - `misbehaving`: a link on which a handset does wrong what it is asked to do wrong
//! - `running`: a run over a link to the centre
//! - `secret`: the secret of its links, from a file
#![tactic(auto)]

ghost use Rattle.std.specs.Prelude.{IfOk, IfSome};
ghost use Rattle.sms_handset.specs.SoundRows.{IsSetup};
ghost use Rattle.handset.specs.Setups.{AreWords};

mod clock;
mod failure;
mod looking;
mod misbehaving;
mod running;
mod secret;

use crate::clock::first_moment;
use crate::failure::{Failure, USAGE, print_failure, words_failure};
use crate::looking::show_store;
use crate::running::{Run, run_lines};
use crate::secret::read_secret;
use sms_handset::Setup;
use smsc_cli::words::{
    About, HandsetWords, Misbehaviour, VERSION, about_of, handset_words, misbehaviour_words,
};
use std::env;
use std::io::{self, Print};
use std::process::ExitCode;

fn main(rt: HostRuntime) -> ExitCode {
    match started(&rt) {
        Ok(()) => ExitCode::from(0),
        Err(failure) => match print_failure(&rt, &failure) {
            Ok(()) => ExitCode::from(failure.status()),
            Err(_) => ExitCode::from(5),
        },
    }
}

fn started(rt: &HostRuntime) -> Result<(), Failure> {
    let owned = args_of(rt)?;
    do_args(rt, owned.as_slice())
}

fn args_of(rt: &HostRuntime) -> Result<Vec<String>, Failure> {
    let args = env::args(rt).map_err(|error| match error.kind() {
        io::ErrorKind::OutOfMemory => Failure::NoMemory,
        _ => Failure::NoText,
    })?;
    let mut owned = Vec::new(rt.alloc());
    for arg in args {
        owned.push(arg).map_err(|_| Failure::NoMemory)?;
    }
    Ok(owned)
}

fn do_args(rt: &HostRuntime, owned: &[String]) -> Result<(), Failure> {
    let mut words = Vec::new(rt.alloc());
    for word in owned {
        words.push(word.as_str()).map_err(|_| Failure::NoMemory)?;
    }
    do_words(rt, words.as_slice())
}

// What the last word asks about the program, if it does.
fn about_text(words: &[&str]) -> Option<&'static str> {
    match about_of(words.last()?)? {
        About::Help => Some(USAGE),
        About::Version => Some(VERSION),
    }
}

fn do_words(rt: &HostRuntime, words: &[&str]) -> Result<(), Failure> {
    match about_text(words) {
        Some(text) => print!(rt; "{text}").map_err(Failure::Standard),
        None => do_run_words(rt, words),
    }
}

#[tactic(auto, using(crate::proofs::Asked::are_words))]
fn do_run_words(rt: &HostRuntime, words: &[&str]) -> Result<(), Failure> {
    match handset_words(rt.alloc(), words) {
        Ok(asked) => do_asked(rt, words, &asked),
        Err(fault) => Err(words_failure(rt.alloc(), words, fault)),
    }
}

fn wrong_of(rt: &HostRuntime, words: &[&str]) -> Result<Misbehaviour, Failure> {
    match misbehaviour_words(rt.alloc(), words) {
        Ok(wrong) => Ok(wrong),
        Err(fault) => Err(words_failure(rt.alloc(), words, fault)),
    }
}

fn do_asked(rt: &HostRuntime, words: &[&str], asked: &HandsetWords<'_>) -> Result<(), Failure>
    requires { AreWords asked.now }
{
    match asked {
        HandsetWords::Run {
            connect,
            number,
            centre,
            slots,
            store,
            frames,
            secret,
        } => {
            let setup = Setup {
                number: *number,
                slots: *slots,
                centre: *centre,
                start: first_moment(),
            };
            let wrong = wrong_of(rt, words)?;
            let secret = read_secret(rt, *secret)?;
            let run = Run {
                setup,
                store,
                port: *connect,
                frames: *frames,
                wrong,
                secret,
            };
            run_lines(rt, &run)
        }
        HandsetWords::Show { store } => show_store(rt, store),
    }
}
