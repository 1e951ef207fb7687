//! Laws of groups, over definitions alone.
ghost use Rattle.std.specs.Prelude.{◌≡◌, ℕ, List, Option, Some, true};
ghost use Rattle.sms_base.specs.Among.{Among};
ghost use Rattle.sms_rows.specs.table.Keys.{pair_key};
ghost use Rattle.sms_centre_rows.specs.messages.Messages.{part_key};
ghost use Rattle.sms_centre_rows.specs.declared.messages.part.PartRow.{PartRow};
ghost use Rattle.sms_centre_rows.specs.reports.Reports.{is_status, status_tpdu};
ghost use Rattle.sms_centre_rows.specs.declared.reports.report.ReportRow.{ReportRow};
ghost use Rattle.sms_centre_spec.specs.Draft.{rows_after};
ghost use Rattle.sms_centre_spec.specs.SoundRows.{IsSound};
ghost use Rattle.sms_centre_spec.specs.bodies.Storing.{GivesBodies};
ghost use Rattle.sms_centre_spec.specs.declared.rows.Changes.{Changes};
ghost use Rattle.sms_centre_spec.specs.declared.rows.Rows.{Rows};
ghost use Rattle.sms_centre_group.specs.Grouping.{grouped_body};
ghost use Rattle.sms_centre_group.specs.Joined.{joined};

/// The changes of two events, one after another, make of the rows what the first makes and then the second. So a commit of
/// them is a commit of both.
pub fn joined_changes_are_those_of_both()
    ensures { (first second : Changes) (rows : Rows) → rows_after (joined first second) rows ≡ rows_after second (rows_after first rows) }
{}

/// Where its store gives the TPDUs of sound rows, a group gives those of the rows that its events led to, if these are sound: that
/// of a part under the part's key, of a status report under that of its message and number 0.
pub fn a_group_gives_its_bodies()
    ensures parts { (body_of : Rows → ℕ → Option (List ℕ)) → GivesBodies body_of → (base : Rows) (held : Changes)
        → IsSound base → IsSound (rows_after held base)
        → (p : PartRow) → Among p (rows_after held base).parts → grouped_body body_of (base, held) (part_key p) ≡ Some p.tpdu }
    ensures reports { (body_of : Rows → ℕ → Option (List ℕ)) → GivesBodies body_of → (base : Rows) (held : Changes)
        → IsSound base → IsSound (rows_after held base)
        → (r : ReportRow) → Among r (rows_after held base).reports → is_status r.kind ≡ true
        → grouped_body body_of (base, held) (pair_key r.id 0) ≡ Some (status_tpdu r.kind) }
{}
