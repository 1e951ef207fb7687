//! The table of what waits, by handset.
ghost use Rattle.std.specs.Prelude.{◌≡◌, ◌++◌, IfOk, OnOk};
ghost use Rattle.smsc_cli.specs.centre_table.StuckTable.{attempts, stuck_line, stuck_table, what_waits};
ghost use Rattle.smsc_cli.specs.columns.Columns.{lines};

use crate::centre_table::messages::{put_due, put_moment};
use crate::columns::{put_name, put_number};
use sms_base::{Moment, Msisdn, Octets};
use std::alloc::{AllocError, Global};

/// What waits for a handset.
#[derive(Clone, Copy)]
pub struct StuckLine {
    pub handset: Msisdn,
    /// How many short messages wait for it.
    pub waiting: u64,
    /// When the oldest of their messages was submitted.
    pub since: Moment,
    /// How often the short message failed that failed most often.
    pub failed: u8,
    /// When the next of them is offered.
    pub due: Option<Moment>,
}

#[tactic(auto, unfolding(crate::specs::centre_table::StuckTable::what_waits))]
fn put_waiting(out: &mut Octets, line: &StuckLine) -> Result<(), AllocError>
    ensures { OnOk result (out.new ≡ out.old ++ what_waits line.now) }
{
    let handset = line.handset.digits();
    put_name(out, 22, handset.as_slice())?;
    put_number(out, 8, line.waiting)?;
    put_moment(out, line.since)
}

#[tactic(auto, unfolding(crate::specs::centre_table::StuckTable::attempts))]
fn put_attempts(out: &mut Octets, line: &StuckLine) -> Result<(), AllocError>
    ensures { OnOk result (out.new ≡ out.old ++ attempts line.now) }
{
    put_number(out, 7, u64::from(line.failed))?;
    put_due(out, None, line.due)?;
    out.append(b"\n")
}

fn put_line(out: &mut Octets, line: &StuckLine) -> Result<(), AllocError>
    ensures { OnOk result (out.new ≡ out.old ++ stuck_line line.now) }
{
    put_waiting(out, line)?;
    put_attempts(out, line)
}

fn put_lines(out: &mut Octets, rows: &[StuckLine]) -> Result<(), AllocError>
    ensures { OnOk result (out.new ≡ out.old ++ lines stuck_line rows.now) }
{
    for line in rows {
        put_line(out, line)?;
    }
    Ok(())
}

/// The table: a line that names the columns, and a line for each handset. It never has a message's text.
#[tactic(auto, unfolding(crate::specs::centre_table::StuckTable::stuck_table))]
pub fn stuck_table(alloc: Global, rows: &[StuckLine]) -> Result<Octets, AllocError>
    ensures { IfOk result (λ text. text ≡ stuck_table rows.now) }
{
    let mut out = Octets::new(alloc);
    out.append(b"TO                    WAITING SINCE        FAILED DUE\n")?;
    put_lines(&mut out, rows)?;
    Ok(out)
}
