//! The centre's server: applications by SMPP and handsets by links, on this machine; or a look at its store, or an order to it.
//!
//! It gives sockets, a clock, a file and a log to `smsc_server::serve`, which does the work. What its threads and sockets
//! carry is not proved. The log, the store's files, a look, a copy, and why a run ended early are `smsc_operation`'s.
//!
//! - `account_book`: the accounts of a run, from its words and from their file
//! - `control`: orders of an operator, over a Unix socket
//! - `forgetting`: what a run forgets as it starts
//! - `ports`: the ports of a run
//! - `reloading`: the accounts' file, read again as the run goes on
//! - `running`: a run of the server
//! - `setup`: the accounts of a run, as each part of it wants them
//! - `status`: the status page
//! - `watchers`: the observers of a run
//! - `watching`: whether the store's files are still those that were opened
#![tactic(auto)]

mod account_book;
mod control;
mod forgetting;
mod ports;
mod reloading;
mod running;
mod setup;
mod status;
mod watchers;
mod watching;

use crate::control::{Command, OrderFault, order};
use crate::running::run_words;
use sms_base::MessageId;
use smsc_cli::words::{About, OrderWord, ServerWords, VERSION, about_of, server_words};
use smsc_operation::looking::show_store;
use smsc_operation::password::print_password;
use smsc_operation::run_fault::{Paths, RunFault, USAGE, words_fault};
use smsc_operation::saving::save_store;
use std::env;
use std::io::{self, Print};
use std::process::ExitCode;
use std::sync::Wait;
use std::thread::Threads;
use std::time::Clock;

fn main(rt: HostRuntime) -> ExitCode {
    match started(rt, rt) {
        Ok(status) => ExitCode::from(status),
        Err(fault) => report(&rt, &fault, &no_paths()),
    }
}

fn no_paths() -> Paths<'static> {
    Paths {
        store: "",
        accounts: "",
        secrets: "",
        control: "",
    }
}

fn said(rt: &HostRuntime, text: &str, status: u8) -> u8 {
    match eprint!(rt; "{text}") {
        Ok(()) => status,
        Err(_) => 5,
    }
}

// Where there is no memory for the text of the fault, that is said.
fn status_of(rt: &HostRuntime, fault: &RunFault, paths: &Paths<'_>) -> u8 {
    match fault.text(rt.alloc(), paths) {
        Ok(text) => said(rt, text.as_str(), fault.status()),
        Err(_) => said(rt, "smscd: out of memory\n", 3),
    }
}

fn report(rt: &HostRuntime, fault: &RunFault, paths: &Paths<'_>) -> ExitCode {
    ExitCode::from(status_of(rt, fault, paths))
}

fn no_words(error: &io::Error) -> RunFault {
    match error.kind() {
        io::ErrorKind::OutOfMemory => RunFault::NoMemory,
        _ => RunFault::NoWords,
    }
}

fn take_args(host: &HostRuntime, owned: &mut Vec<String>) -> Result<(), RunFault> {
    let args = env::args(host).map_err(|error| no_words(&error))?;
    for arg in args {
        owned.push(arg)?;
    }
    Ok(())
}

fn put_words<'a>(owned: &'a [String], words: &mut Vec<&'a str>) -> Result<(), RunFault> {
    for word in owned {
        words.push(word.as_str())?;
    }
    Ok(())
}

fn do_args<R: Threads + Wait + Clock + Copy + Send + Sync + 'static>(
    host: HostRuntime,
    rt: R,
    args: &[String],
) -> Result<u8, RunFault> {
    let mut words = Vec::new(host.alloc());
    put_words(args, &mut words)?;
    do_words(host, rt, words.as_slice())
}

fn started<R: Threads + Wait + Clock + Copy + Send + Sync + 'static>(
    host: HostRuntime,
    rt: R,
) -> Result<u8, RunFault> {
    let mut args = Vec::new(host.alloc());
    take_args(&host, &mut args)?;
    do_args(host, rt, args.as_slice())
}

fn paths_of<'a>(asked: &ServerWords<'a>) -> Paths<'a> {
    match asked {
        ServerWords::Run(run, _) => Paths {
            store: run.store,
            accounts: run.accounts.unwrap_or(""),
            secrets: run.link_secrets.unwrap_or(""),
            control: run.control.unwrap_or(""),
        },
        ServerWords::Show { store, .. } => Paths {
            store: *store,
            accounts: "",
            secrets: "",
            control: "",
        },
        ServerWords::Save { store, .. } => Paths {
            store: *store,
            accounts: "",
            secrets: "",
            control: "",
        },
        ServerWords::Stop { control, .. }
        | ServerWords::End { control, .. }
        | ServerWords::Reload { control }
        | ServerWords::Order { control, .. } => Paths {
            store: "",
            accounts: "",
            secrets: "",
            control: *control,
        },
        ServerWords::Password => Paths {
            store: "",
            accounts: "",
            secrets: "",
            control: "",
        },
    }
}

// What the last word asks about the program, if it does.
fn about_text(words: &[&str]) -> Option<&'static str> {
    match about_of(words.last()?)? {
        About::Help => Some(USAGE),
        About::Version => Some(VERSION),
    }
}

fn print_about(host: &HostRuntime, text: &str) -> Result<u8, RunFault> {
    match print!(host; "{text}") {
        Ok(()) => Ok(0),
        Err(_) => Err(RunFault::Output),
    }
}

fn do_words<R: Threads + Wait + Clock + Copy + Send + Sync + 'static>(
    host: HostRuntime,
    rt: R,
    words: &[&str],
) -> Result<u8, RunFault> {
    if let Some(text) = about_text(words) {
        return print_about(&host, text);
    }
    let asked = match server_words(host.alloc(), words) {
        Ok(asked) => asked,
        Err(fault) => return Err(words_fault(host.alloc(), words, fault)),
    };
    match do_asked(host, rt, &asked) {
        Ok(()) => Ok(0),
        Err(fault) => Ok(status_of(&host, &fault, &paths_of(&asked))),
    }
}

// So many seconds an order may take where the words don't say.
const WAIT: u32 = 15;

// And one that the accounts' file is read again, as many accounts may have to come first.
const RELOAD_WAIT: u32 = 60;

// Why the server did not do it. A reload, or an order of a message, has a reason of its own.
fn refused(has_reason: bool, text: String) -> RunFault {
    if has_reason {
        return RunFault::NotDone(text);
    }
    drop(text);
    RunFault::Refused
}

fn give(
    host: &HostRuntime,
    control: &str,
    command: Command,
    has_reason: bool,
    wait: u32,
) -> Result<(), RunFault> {
    match order(host, control, command, wait) {
        Ok(()) => Ok(()),
        Err(OrderFault::Nobody(error)) => Err(RunFault::Control(error)),
        Err(OrderFault::Refused(text)) => Err(refused(has_reason, text)),
        Err(OrderFault::NotEnded) => Err(RunFault::NotEnded(wait)),
    }
}

fn order_by(order: OrderWord, id: MessageId) -> Command {
    match order {
        OrderWord::Retry => Command::Retry(id),
        OrderWord::Cancel => Command::Cancel(id),
    }
}

fn do_asked<R: Threads + Wait + Clock + Copy + Send + Sync + 'static>(
    host: HostRuntime,
    rt: R,
    asked: &ServerWords<'_>,
) -> Result<(), RunFault> {
    match asked {
        ServerWords::Run(run, accounts) => run_words(host, rt, run, accounts.as_slice()),
        ServerWords::Show {
            store,
            filter,
            by_handset,
        } => show_store(&host, store, filter, *by_handset),
        ServerWords::Save { store, to } => save_store(&host, store, to),
        ServerWords::Stop { control, wait } => {
            let wait = wait.unwrap_or(WAIT);
            give(&host, control, Command::Stop, false, wait)
        }
        ServerWords::End { control, seat } => {
            give(&host, control, Command::End(*seat), false, WAIT)
        }
        ServerWords::Reload { control } => {
            give(&host, control, Command::Reload, true, RELOAD_WAIT)
        }
        ServerWords::Order { control, order, id } => {
            give(&host, control, order_by(*order, *id), true, WAIT)
        }
        ServerWords::Password => print_password(&host),
    }
}
