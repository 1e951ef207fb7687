//! Laws of the tests of rows: each holds exactly where the definition's condition does.
ghost use Rattle.std.specs.Prelude.{◌≡◌, ◌↔◌, ℕ, List, filter_map, true};
ghost use Rattle.sms_base.specs.Among.{Among};
ghost use Rattle.sms_centre_rows.specs.messages.Messages.{message_key, part_key, priority_key};
ghost use Rattle.sms_centre_rows.specs.messages.SoundMessages.{SoundMessages};
ghost use Rattle.sms_centre_rows.specs.declared.messages.message.MessageRow.{MessageRow};
ghost use Rattle.sms_centre_rows.specs.declared.messages.part.PartRow.{PartRow};
ghost use Rattle.sms_centre_rows.specs.declared.messages.priority.PriorityRow.{PriorityRow};
ghost use Rattle.sms_centre_rows.specs.reports.Reports.{report_key};
ghost use Rattle.sms_centre_rows.specs.reports.SoundReports.{SoundReports};
ghost use Rattle.sms_centre_rows.specs.declared.reports.report.ReportRow.{ReportRow};
ghost use Rattle.sms_centre_rows.specs.reports.Waiting.{waiting_for};
ghost use Rattle.sms_rows.specs.table.Table.{Rises};
ghost use Rattle.sms_centre_rows.specs.waiting.Keys.{handset_key, reference_key};
ghost use Rattle.sms_centre_rows.specs.waiting.References.{handset_at};
ghost use Rattle.sms_centre_rows.specs.waiting.SoundAllocations.{SoundAllocations};
ghost use Rattle.sms_centre_rows.specs.waiting.SoundWaiting.{SoundWaiting};
ghost use Rattle.sms_centre_rows.specs.declared.waiting.handset.HandsetRow.{HandsetRow};
ghost use Rattle.sms_centre_rows.specs.declared.waiting.reference.ReferenceRow.{ReferenceRow};
ghost use Rattle.std.specs.List.{list_all};
ghost use Rattle.sms_centre_spec.specs.SoundRows.{AreSplitApart, AreTimes, HasReportAddress, IsSetup};
ghost use Rattle.sms_centre_spec.specs.declared.setup.Setup.{Setup};
ghost use Rattle.sms_centre_rows.specs.conditions.AllocationTest.{AllocationsPass};
ghost use Rattle.sms_centre_rows.specs.conditions.MessageTest.{MessagesPass};
ghost use Rattle.sms_centre_rows.specs.conditions.ReportTest.{ReportsPass};
ghost use Rattle.sms_centre_spec.specs.conditions.RowsTest.{TimesPass, is_setup, is_reportable};
ghost use Rattle.sms_centre_rows.specs.conditions.SplitTest.{split_of, splits_differ};
ghost use Rattle.sms_centre_rows.specs.conditions.WaitingTest.{Places, WaitingPass};

/// Where keys rise, messages, parts and priorities pass exactly where they are sound.
pub fn messages_are_tested()
    ensures { (messages : List MessageRow) (parts : List PartRow) (priorities : List PriorityRow) → Rises message_key messages → Rises part_key parts
        → Rises priority_key priorities
        → MessagesPass messages parts priorities ↔ SoundMessages messages parts priorities }
{}

/// Where keys rise, handsets and references pass exactly where they are sound.
pub fn allocations_are_tested()
    ensures { (handsets : List HandsetRow) (references : List ReferenceRow) → Rises handset_key handsets → Rises reference_key references
        → AllocationsPass handsets references ↔ SoundAllocations handsets references }
{}

/// Where keys rise, reports pass exactly where they are sound.
pub fn reports_are_tested()
    ensures { (messages : List MessageRow) (reports : List ReportRow) → Rises report_key reports
        → ReportsPass messages reports ↔ SoundReports messages reports }
{}

/// Where everything else is sound, what waits passes exactly where it is sound for each handset.
pub fn waiting_is_tested()
    ensures { (entries : List (ℕ × ℕ)) (handsets : List HandsetRow) (references : List ReferenceRow) (messages : List MessageRow)
        (priorities : List PriorityRow) (parts : List PartRow) (reports : List ReportRow)
        → Places entries handsets → SoundAllocations handsets references → SoundMessages messages parts priorities → SoundReports messages reports →
        ((m : MessageRow) → Among m messages → HasReportAddress m.originator m.source)
        → WaitingPass entries messages references parts reports ↔
        ((number : List ℕ) → SoundWaiting (handset_at number handsets) references (waiting_for number messages priorities parts reports)) }
{}

/// A setup passes exactly where a centre can start with it, and moments and originators exactly where they are sound.
pub fn setup_and_times_are_tested()
    ensures setup { (setup : Setup) → (is_setup setup ≡ true) ↔ IsSetup setup }
    ensures times { (messages : List MessageRow) (references : List ReferenceRow) (reports : List ReportRow)
        → TimesPass messages references reports ↔ AreTimes messages references reports }
    ensures report_addresses { (messages : List MessageRow) → (list_all is_reportable messages ≡ true)
        ↔ ((m : MessageRow) → Among m messages → HasReportAddress m.originator m.source) }
{}

/// Where their keys rise, messages pass exactly where those of a source to a handset that aren't wholly delivered were split under
/// references that differ.
pub fn splits_are_tested()
    ensures { (messages : List MessageRow) → Rises message_key messages → (splits_differ (filter_map split_of messages) ≡ true) ↔ AreSplitApart messages }
{}
