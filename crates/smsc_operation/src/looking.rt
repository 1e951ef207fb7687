//! A look at a store, which changes nothing in it.
use crate::moments::text_of;
use crate::opening::system_fault;
use crate::run_fault::RunFault;
use crate::stuck::stuck_lines;
use sms_base::{Moment, Octets};
use sms_centre_recovery::soundness::RowTables;
use sms_centre_rows::messages::{MessageRow, PartRow};
use sms_rows::keep::KeepError;
use sms_rows::table::{Table, rises};
use sms_store::look::rows_at;
use smsc_cli::centre_table::{Filter, ShowError, last_of, selected, show, stuck_table};
use std::alloc::{AllocError, Global};
use std::io::{Print, Write};

fn print_messages(
    rt: &HostRuntime,
    messages: Vec<MessageRow>,
    parts: Vec<PartRow>,
    filter: &Filter<'_>,
) -> Result<(), RunFault> {
    let mut stdout = rt.stdout();
    match show(rt.alloc(), messages, parts, filter, &mut stdout) {
        Ok(()) => Ok(()),
        Err(ShowError::BadRows) => Err(RunFault::BadRows),
        Err(ShowError::NoMemory) => Err(RunFault::NoMemory),
        Err(ShowError::Io(_)) => Err(RunFault::Output),
    }
}

// When the first message was submitted that the store still has.
fn oldest_in(messages: &[MessageRow]) -> Option<Moment> {
    messages.first().map(|message| message.submitted)
}

fn oldest_text(alloc: Global, oldest: Option<Moment>) -> Result<String, AllocError> {
    let Some(oldest) = oldest else {
        return Ok(String::new(alloc));
    };
    let oldest = text_of(alloc, oldest)?;
    Ok(format!(in alloc; "OLDEST  {oldest}\n")?)
}

// How far back the store goes.
fn print_oldest(rt: &HostRuntime, oldest: Option<Moment>) -> Result<(), RunFault> {
    let text = oldest_text(rt.alloc(), oldest)?;
    match print!(rt; "{text}") {
        Ok(()) => Ok(()),
        Err(_) => Err(RunFault::Output),
    }
}

fn stuck_text(
    alloc: Global,
    messages: Vec<MessageRow>,
    parts: &Table<PartRow>,
    filter: &Filter<'_>,
) -> Result<Octets, AllocError> {
    let messages = selected(filter, messages);
    let lines = stuck_lines(alloc, last_of(messages.as_slice(), filter.last), parts)?;
    stuck_table(alloc, lines.as_slice())
}

// What waits of the messages that the filter selects, by handset.
fn print_stuck(
    rt: &HostRuntime,
    messages: Vec<MessageRow>,
    parts: Vec<PartRow>,
    filter: &Filter<'_>,
) -> Result<(), RunFault> {
    if !rises(parts.as_slice()) {
        return Err(RunFault::BadRows);
    }
    let parts = Table::from_vec(parts);
    let text = stuck_text(rt.alloc(), messages, &parts, filter)?;
    let mut stdout = rt.stdout();
    match stdout.write_all(text.as_slice()) {
        Ok(()) => Ok(()),
        Err(_) => Err(RunFault::Output),
    }
}

fn print_tables(
    rt: &HostRuntime,
    tables: RowTables,
    filter: &Filter<'_>,
    by_handset: bool,
) -> Result<(), RunFault> {
    let RowTables {
        messages,
        parts,
        ..
    } = tables;
    if by_handset {
        return print_stuck(rt, messages.into_vec(), parts.into_vec(), filter);
    }
    let oldest = oldest_in(messages.as_slice());
    print_messages(rt, messages.into_vec(), parts.into_vec(), filter)?;
    print_oldest(rt, oldest)
}

// Whether a run could start on them.
fn judge(alloc: Global, tables: &RowTables) -> Result<(), RunFault> {
    if tables.is_sound(alloc)? {
        Ok(())
    } else {
        Err(RunFault::BadRows)
    }
}

fn show_tables(
    rt: &HostRuntime,
    tables: RowTables,
    filter: &Filter<'_>,
    by_handset: bool,
) -> Result<(), RunFault> {
    match judge(rt.alloc(), &tables) {
        Ok(()) => print_tables(rt, tables, filter, by_handset),
        Err(fault) => {
            drop(tables);
            Err(fault)
        }
    }
}

// Why the store can't be looked at. A run may have it open, so it is not opened again.
fn look_fault(rt: &HostRuntime, path: &str, error: KeepError) -> RunFault {
    match error {
        KeepError::Disk => RunFault::Store(system_fault(rt, path)),
        error => RunFault::from(error),
    }
}

/// Prints the messages of the store at the path that pass the filter, how many of them are in each state, and how far back the store
/// goes; or what waits of them, by handset. Rows on which no run would start are refused.
pub fn show_store(
    rt: &HostRuntime,
    path: &str,
    filter: &Filter<'_>,
    by_handset: bool,
) -> Result<(), RunFault> {
    match rows_at(rt, path) {
        Ok(rows) => match RowTables::of(rows) {
            Some(tables) => show_tables(rt, tables, filter, by_handset),
            None => Err(RunFault::BadRows),
        },
        Err(error) => Err(look_fault(rt, path, error)),
    }
}
