//! What a centre keeps.
ghost use Rattle.std.specs.Prelude.{◌≡◌, refl};
ghost use Rattle.sms_store.specs.centre.CentreRows.{centre_stores};
ghost use Rattle.sms_store.specs.centre.Types.{rows_after};
ghost use Rattle.sms_store.specs.centre.Lawful.{centre_lawful};

use crate::centre::founding::{declare, make_tables};
use crate::keeping::Kept;
use sms_base::Listed;
use sms_centre_rows::messages::{BarRow, MessageRow, PartRow, PriorityRow};
use sms_centre_rows::reports::ReportRow;
use sms_centre_rows::waiting::{HandsetRow, ReferenceRow};
use sms_centre_spec::octets::copy_of_setup;
use sms_centre_spec::{Changes, Rows, Setup};
use sms_store_sql::listing::{Last, StoredLists, Then, write};
use sms_store_tables::amending::write_revisions;
use sms_store_tables::centre::CentreStore;
use sqlite::{Alter, Connection, Error, Transaction};
use std::alloc::Global;

// The lists behind those of the handsets.
type MoreLists = Then<ReportRow, Then<PriorityRow, Last<BarRow>>>;

// All lists.
type Lists = Then<MessageRow, Then<PartRow, Then<ReferenceRow, Then<HandsetRow, MoreLists>>>>;

type MoreFound = (Vec<ReportRow>, (Vec<PriorityRow>, Vec<BarRow>));

type Found = (
    Vec<MessageRow>,
    (
        Vec<PartRow>,
        (Vec<ReferenceRow>, (Vec<HandsetRow>, MoreFound)),
    ),
);

impl Kept for Setup {
    type Rows = Rows;

    type Changes = Changes;

    ghost stores = { centre_stores };

    ghost after = { λ changes rows. rows_after changes rows };

    fn make<S: Alter>(alloc: Global, tx: &mut Transaction<'_, S>) -> Result<(), Error> {
        make_tables(tx)?;
        declare(alloc, tx)
    }

    fn write<S: Alter>(
        alloc: Global,
        tx: &mut Transaction<'_, S>,
        changes: &Changes,
    ) -> Result<(), Error> {
        write::<CentreStore, MessageRow, S>(alloc, tx, changes.messages.as_slice())?;
        write_revisions::<CentreStore, PartRow, S>(alloc, tx, changes.parts.as_slice())?;
        write::<CentreStore, ReferenceRow, S>(alloc, tx, changes.references.as_slice())?;
        write::<CentreStore, HandsetRow, S>(alloc, tx, changes.handsets.as_slice())?;
        write_revisions::<CentreStore, ReportRow, S>(alloc, tx, changes.reports.as_slice())?;
        write::<CentreStore, PriorityRow, S>(alloc, tx, changes.priorities.as_slice())?;
        write::<CentreStore, BarRow, S>(alloc, tx, changes.bars.as_slice())
    }

    fn read<S: Alter>(&self, alloc: Global, conn: &mut Connection<S>) -> Result<Rows, Error> {
        let lists = <Lists as StoredLists<CentreStore>>::load_all(alloc, conn)?;
        let setup = copy_of_setup(alloc, self)?;
        Ok(rows_of(lists, setup))
    }

    ghost lawful = { centre_lawful };

    ghost same_setup = { λ changes rows. refl };
}

// The rows of the lists.
fn rows_of(lists: Found, setup: Setup) -> Rows
    ensures { result ≡ record {
      messages = lists.0.items;
      parts = lists.1.0.items;
      references = lists.1.1.0.items;
      handsets = lists.1.1.1.0.items;
      reports = lists.1.1.1.1.0.items;
      priorities = lists.1.1.1.1.1.0.items;
      bars = lists.1.1.1.1.1.1.items;
      setup = setup;
    } }
{
    let (messages, (parts, (references, (handsets, (reports, (priorities, bars)))))) = lists;
    Rows {
        messages: Listed::from_vec(messages),
        parts: Listed::from_vec(parts),
        references: Listed::from_vec(references),
        handsets: Listed::from_vec(handsets),
        reports: Listed::from_vec(reports),
        priorities: Listed::from_vec(priorities),
        bars: Listed::from_vec(bars),
        setup,
    }
}
