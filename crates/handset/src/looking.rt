//! A look at a store, which changes nothing in it.
ghost use Rattle.std.specs.Prelude.{IfOk};
ghost use Rattle.sms_handset.specs.SoundRows.{IsSetup};

use crate::clock::first_moment;
use crate::failure::Failure;
use sms_base::Address;
use sms_handset::machine::recover_from;
use sms_handset::{Changes, Handset, Rows, Setup};
use sms_rows::keep::{Keep, KeepError};
use sms_store::HandsetKeep;
use sms_store_sql::listing::load_cause_of;
use sms_store_sql::snapshot::{DatabaseCopy, connect, copy_at};
use sms_store_tables::handset::is_handset_schema;
use smsc_cli::handset_table::{ShowError, show};
use sqlite::{Alter, Connection};
use std::io::ErrorKind;

// The setup of a look: what a store shows does not depend on it.
fn any_setup() -> Result<Setup, Failure>
    ensures { IfOk result (λ setup. IsSetup setup) }
{
    match Address::new(1, 1, "0") {
        Ok(number) => {
            let centre = number;
            Ok(Setup {
                number,
                slots: 255,
                centre,
                start: first_moment(),
            })
        }
        Err(_) => Err(Failure::NoText),
    }
}

fn copy_of(rt: &HostRuntime, path: &str) -> Result<DatabaseCopy, Failure> {
    match copy_at(rt, path) {
        Ok(copy) => Ok(copy),
        Err(error) if error.kind() == ErrorKind::OutOfMemory => Err(Failure::NoMemory),
        Err(error) => Err(Failure::NoStore(error)),
    }
}

fn print_table(rt: &HostRuntime, handset: &Handset) -> Result<(), Failure> {
    let mut stdout = rt.stdout();
    match show(rt.alloc(), handset.inbox(), handset.outbox(), &mut stdout) {
        Ok(()) => Ok(()),
        Err(ShowError::NoMemory) => Err(Failure::NoMemory),
        Err(ShowError::Io(error)) => Err(Failure::Standard(error)),
    }
}

fn show_keep<K: Keep<Rows = Rows, Changes = Changes> + Drop>(
    rt: &HostRuntime,
    keep: K,
    setup: &Setup,
) -> Result<(), Failure>
    requires { IsSetup setup.now }
{
    let mut keep = keep;
    let handset = recover_from(rt.alloc(), &mut keep, *setup)?;
    print_table(rt, &handset)
}

// Shows the store that the connection is to. A database without tables would become a new store, so it is refused.
fn show_connection<S: Alter + Drop>(
    rt: &HostRuntime,
    conn: Connection<S>,
    setup: &Setup,
) -> Result<(), Failure>
    requires { IsSetup setup.now }
{
    if !is_handset_schema(conn.schema()) {
        return Err(Failure::Store(KeepError::NotThisStore));
    }
    match HandsetKeep::over(rt.alloc(), conn, *setup) {
        Ok(keep) => show_keep(rt, keep, setup),
        Err((error, _)) => Err(Failure::from(error)),
    }
}

fn show_copy(rt: &HostRuntime, copy: &DatabaseCopy, setup: &Setup) -> Result<(), Failure>
    requires { IsSetup setup.now }
{
    match connect(rt.alloc(), copy) {
        Ok(conn) => show_connection(rt, conn, setup),
        Err(error) => Err(Failure::from(load_cause_of(error))),
    }
}

/// Prints the inbox and the outbox of the store at the path, by a copy of its files in memory. A running handset may
/// have it open.
pub(crate) fn show_store(rt: &HostRuntime, path: &str) -> Result<(), Failure> {
    let copy = copy_of(rt, path)?;
    let setup = any_setup()?;
    show_copy(rt, &copy, &setup)
}
