//! Groups of parts in columns.
ghost use Rattle.std.specs.Prelude.{◌≡◌, ◌<◌, ◌+◌, IfErr, IfOk};
ghost use Rattle.sqlite_value.specs.Order.{column};
ghost use Rattle.sms_handset_rows.specs.declared.inbox.entry.Group.{Group as GroupOf};
ghost use Rattle.sms_store_sql.specs.listing.Reading.{LacksMemory};
ghost use Rattle.sms_store_tables.specs.handset.Groups.{HasGroup, IsStoredGroup, group_in};

use crate::references::reference_at;
use sms_handset_rows::inbox::Group;
use sms_store_sql::listing::{address_at, octet_at};
use sqlite::{Error, Row};

/// The group in six columns: its source in three, its reference in two, and how many parts it has.
pub(crate) fn group_at(row: &Row, at: usize) -> Result<Group, Error>
    requires { at < 900 }
    ensures value { IfOk result (λ group. group ≡ group_in (column row.now at) (column row.now (at + 1)) (column row.now (at + 2)) (column row.now (at + 3))
        (column row.now (at + 4)) (column row.now (at + 5))) }
    ensures only { (g : GroupOf) → IsStoredGroup g → HasGroup row.now at g → IfErr result LacksMemory }
{
    let source = address_at(row, at)?;
    let reference = reference_at(row, at + 3, at + 4)?;
    let total = octet_at(row, at + 5)?;
    Ok(Group {
        source,
        reference,
        total,
    })
}
