//! Bodies of a keep in memory.
ghost use Rattle.std.specs.Prelude.{◌≡◌, IfErr, IfOk, option_copied};
ghost use Rattle.sms_centre_spec.specs.declared.rows.Rows.{Rows as RowsOf};
ghost use Rattle.sms_rows.specs.declared.keep.error.KeepError.TheVariants.{NoMemory};
ghost use Rattle.sms_rows.specs.keep.StoreOutcome.{IsReadCounted, StoreOutcome, WasHonest};
ghost use Rattle.sms_centre_spec.specs.octets.OctetsAt.{octets_at, part_octets, report_octets};
ghost use Rattle.sms_centre_rows.specs.messages.Messages.{part_key};
ghost use Rattle.sms_rows.specs.table.Table.{row_at};
ghost use Rattle.sms_centre_rows.specs.reports.Reports.{report_of};
ghost use Rattle.sms_store_memory.specs.centre.RowsInKeep.{rows_in, state_of};

use crate::centre::keep::MemoryKeep;
use sms_base::Octets;
use sms_centre_rows::reports::ReportRow;
use sms_centre_spec::octets::{copy_of_kind_octets, copy_of_octets};
use sms_rows::keep::{BodyKeep, KeepError};
use sms_rows::table::Key;
use std::alloc::AllocError;

fn report_on<'a>(id: u128, reports: &'a [ReportRow]) -> Option<&'a ReportRow>
    ensures { option_copied result ≡ report_of id reports.entry.now }
{
    for report in reports {
        if u128::from(report.id.number()) == id {
            return Some(report);
        }
    }
    None
}

impl MemoryKeep {
    fn part_octets(&self, key: Key) -> Result<Option<Octets>, AllocError>
        ensures { IfOk result (λ octets. octets ≡ part_octets (row_at part_key key self.now.parts.rows)) }
    {
        match self.parts.find(key) {
            Some(part) => {
                let octets = copy_of_octets(self.alloc, &part.tpdu)?;
                Ok(Some(octets))
            }
            None => Ok(None),
        }
    }

    fn report_octets(&self, id: u128) -> Result<Option<Octets>, AllocError>
        ensures { IfOk result (λ octets. octets ≡ report_octets (report_of id self.now.reports.rows)) }
    {
        match report_on(id, self.reports.as_slice()) {
            Some(report) => copy_of_kind_octets(self.alloc, &report.kind),
            None => Ok(None),
        }
    }

    fn octets_under(&self, key: Key) -> Result<Option<Octets>, AllocError>
        ensures { IfOk result (λ octets. octets ≡ octets_at (rows_in self.now) key) }
    {
        if key.number() % 256 == 0 {
            self.report_octets(key.number() / 256)
        } else {
            self.part_octets(key)
        }
    }
}

impl BodyKeep for MemoryKeep {
    ghost body_of = { octets_at };

    fn body(&mut self, key: Key) -> Result<Option<Octets>, KeepError>
        ensures outcome { (rows : RowsOf) → StoreOutcome (λ body. body ≡ octets_at rows key) rows rows (state_of self.old) (state_of self.new) result }
        ensures memory { IfErr result (λ error. error ≡ NoMemory) }
        ensures before { WasHonest (state_of self.old) (state_of self.new) }
        ensures counted { IsReadCounted key (state_of self.old) (state_of self.new) result }
    {
        match self.octets_under(key) {
            Ok(octets) => {
                self.refusals.answer();
                Ok(octets)
            }
            Err(_) => {
                self.refusals.read(key);
                Err(KeepError::NoMemory)
            }
        }
    }
}
