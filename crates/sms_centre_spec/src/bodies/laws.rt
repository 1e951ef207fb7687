//! Laws of the octets that rows have under a key, over definitions alone.
ghost use Rattle.std.specs.Prelude.{◌≡◌, true, Some};
ghost use Rattle.sms_base.specs.Among.{Among};
ghost use Rattle.sms_rows.specs.table.Keys.{pair_key};
ghost use Rattle.sms_centre_rows.specs.messages.Messages.{part_key};
ghost use Rattle.sms_centre_rows.specs.declared.messages.part.PartRow.{PartRow};
ghost use Rattle.sms_centre_rows.specs.reports.Reports.{is_status, status_tpdu};
ghost use Rattle.sms_centre_rows.specs.declared.reports.report.ReportRow.{ReportRow};
ghost use Rattle.sms_centre_spec.specs.SoundRows.{IsSound};
ghost use Rattle.sms_centre_spec.specs.declared.rows.Rows.{Rows};
ghost use Rattle.sms_centre_spec.specs.octets.OctetsAt.{octets_at};

/// In sound rows the octets under the key of a part are its TPDU. Those under the key of a message and number 0 are the
/// TPDU of its status report.
pub fn sound_rows_have_their_octets()
    ensures parts { (rows : Rows) → IsSound rows → (p : PartRow) → Among p rows.parts → octets_at rows (part_key p) ≡ Some p.tpdu }
    ensures reports { (rows : Rows) → IsSound rows → (r : ReportRow) → Among r rows.reports → is_status r.kind ≡ true
        → octets_at rows (pair_key r.id 0) ≡ Some (status_tpdu r.kind) }
{}
