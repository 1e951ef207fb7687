//! The table.
ghost use Rattle.std.specs.Prelude.{◌≡◌, ◌++◌, IfOk, OnOk};
ghost use Rattle.smsc_cli.specs.columns.Columns.{lines};
ghost use Rattle.smsc_cli.specs.centre_table.CentreTable.{centre_table, head_line, message_line, totals};

use crate::centre_table::messages::put_messages;
use crate::centre_table::totals::put_totals;
use sms_base::Octets;
use sms_centre_rows::messages::{MessageRow, PartRow};
use sms_rows::table::Table;
use std::alloc::{AllocError, Global};

fn put_table(
    out: &mut Octets,
    messages: &[MessageRow],
    parts: &Table<PartRow>,
) -> Result<(), AllocError>
    ensures { OnOk result (out.new ≡ out.old ++ (head_line ++ (lines (message_line parts.now.rows) messages.now ++ totals messages.now))) }
{
    out.append(
        b"ID         FROM                  TO                    STATE   SUBMITTED    CHANGED      ATTEMPTS DUE\n",
    )?;
    put_messages(out, parts, messages)?;
    put_totals(out, messages)
}

/// The table of messages and their parts: a line that names the columns, a line for each message, and a line for each
/// state.
///
/// A state's line has the number of its messages. Moments are `YYMMDDhhmmss` at UTC. Costs a search of the parts for each
/// message.
#[tactic(auto, unfolding(crate::specs::centre_table::CentreTable::centre_table))]
pub fn centre_table(
    alloc: Global,
    messages: &[MessageRow],
    parts: &Table<PartRow>,
) -> Result<Octets, AllocError>
    ensures { IfOk result (λ text. text ≡ centre_table messages.now parts.now.rows) }
{
    let mut out = Octets::new(alloc);
    put_table(&mut out, messages, parts)?;
    Ok(out)
}
