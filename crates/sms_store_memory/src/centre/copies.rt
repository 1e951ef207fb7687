//! Copies of a centre's rows.
ghost use Rattle.std.specs.Prelude.{◌≡◌, IfOk, refl};
ghost use Rattle.sms_centre_rows.specs.messages.Messages.{part_reaching};
ghost use Rattle.sms_centre_rows.specs.reports.Reports.{report_reaching};

use crate::centre::keep::MemoryKeep;
use crate::revising::Reaching;
use sms_base::Originator;
use sms_centre_rows::messages::{BarRow, MessageRow, PartRow, PriorityRow};
use sms_centre_rows::reports::{ReportKind, ReportRow};
use sms_centre_rows::waiting::{HandsetRow, Progress, ReferenceRow};
use sms_centre_spec::octets::copy_of_octets;
use sms_rows::memory::CopiedRow;
use std::alloc::{AllocError, Global};

fn copy_of_originator(alloc: Global, originator: &Originator) -> Result<Originator, AllocError>
    ensures { IfOk result (λ copy. copy ≡ originator.now) }
{
    match originator {
        Originator::Application { account } => {
            let account = copy_of_octets(alloc, account)?;
            Ok(Originator::Application { account })
        }
        Originator::Handset { message_reference } => Ok(Originator::Handset {
            message_reference: *message_reference,
        }),
    }
}

fn copy_of_kind(alloc: Global, kind: &ReportKind) -> Result<ReportKind, AllocError>
    ensures { IfOk result (λ copy. copy ≡ kind.now) }
{
    match kind {
        ReportKind::Receipt => Ok(ReportKind::Receipt),
        ReportKind::Status { reference, tpdu } => {
            let tpdu = copy_of_octets(alloc, tpdu)?;
            Ok(ReportKind::Status {
                reference: *reference,
                tpdu,
            })
        }
        ReportKind::Unsent => Ok(ReportKind::Unsent),
    }
}

impl CopiedRow<MemoryKeep> for MessageRow {
    fn copied(&self, alloc: Global) -> Result<MessageRow, AllocError> {
        let originator = copy_of_originator(alloc, &self.originator)?;
        Ok(MessageRow {
            id: self.id,
            originator,
            source: self.source,
            handset: self.handset,
            data_coding_scheme: self.data_coding_scheme,
            protocol_identifier: self.protocol_identifier,
            wish: self.wish,
            submitted: self.submitted,
            limit: self.limit,
            split_reference: self.split_reference,
            state: self.state,
            done: self.done,
        })
    }
}

impl CopiedRow<MemoryKeep> for PartRow {
    fn copied(&self, alloc: Global) -> Result<PartRow, AllocError> {
        let tpdu = copy_of_octets(alloc, &self.tpdu)?;
        Ok(PartRow {
            id: self.id,
            number: self.number,
            reference: self.reference,
            tpdu,
            key: self.key,
            progress: self.progress,
        })
    }
}

impl CopiedRow<MemoryKeep> for ReferenceRow {
    fn copied(&self, _alloc: Global) -> Result<ReferenceRow, AllocError> {
        Ok(*self)
    }
}

impl CopiedRow<MemoryKeep> for HandsetRow {
    fn copied(&self, _alloc: Global) -> Result<HandsetRow, AllocError> {
        Ok(*self)
    }
}

impl CopiedRow<MemoryKeep> for ReportRow {
    fn copied(&self, alloc: Global) -> Result<ReportRow, AllocError> {
        let kind = copy_of_kind(alloc, &self.kind)?;
        Ok(ReportRow {
            place: self.place,
            id: self.id,
            kind,
            made: self.made,
            progress: self.progress,
        })
    }
}

impl CopiedRow<MemoryKeep> for BarRow {
    fn copied(&self, _alloc: Global) -> Result<BarRow, AllocError> {
        Ok(BarRow {
            place: self.place,
            source: self.source,
            handset: self.handset,
            reference: self.reference,
            is_own: self.is_own,
        })
    }
}

impl CopiedRow<MemoryKeep> for PriorityRow {
    fn copied(&self, _alloc: Global) -> Result<PriorityRow, AllocError> {
        Ok(*self)
    }
}

impl Reaching<MemoryKeep> for PartRow {
    ghost reaching = { part_reaching };

    fn reach(self, progress: Progress) -> PartRow {
        let mut row = self;
        row.progress = progress;
        row
    }

    ghost keeps = { λ progress row. refl };
}

impl Reaching<MemoryKeep> for ReportRow {
    ghost reaching = { report_reaching };

    fn reach(self, progress: Progress) -> ReportRow {
        let mut row = self;
        row.progress = progress;
        row
    }

    ghost keeps = { λ progress row. refl };
}
