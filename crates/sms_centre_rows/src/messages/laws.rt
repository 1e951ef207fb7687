//! Laws of the parts without their TPDUs, over their definitions alone: they follow the rows of the parts.
ghost use Rattle.std.specs.Prelude.{◌≡◌, ℕ, List, Some, map};
ghost use Rattle.std.specs.Option.{option_map};
ghost use Rattle.sms_centre_rows.specs.messages.Messages.{all_done, part_key, part_reaching};
ghost use Rattle.sms_centre_rows.specs.messages.PartEntries.{Few, PartsOf, Represents, amending, done_to, entry_key, part_entry, putting, rows_now};
ghost use Rattle.sms_centre_rows.specs.declared.messages.part.PartRow.{PartRow};
ghost use Rattle.sms_rows.specs.table.Table.{Rises, row_at};
ghost use Rattle.sms_centre_rows.specs.waiting.Revisions.{Revised, amend_in, put_in, rows_of};
ghost use Rattle.sms_centre_rows.specs.declared.waiting.progress.Progress.{Progress};

/// A part that is new, or is so far, is so in memory and in the rows alike, with equal changes.
pub fn parts_in_memory_follow_the_rows()
    ensures put { (p : PartsOf) (t : Revised PartRow) (row : PartRow) → Rises part_key (rows_of part_key part_reaching t) → Represents p t
        → Represents (putting row p) (put_in row t) }
    ensures amended { (p : PartsOf) (t : Revised PartRow) (row : PartRow) (progress : Progress) → Rises part_key (rows_of part_key part_reaching t)
        → row_at part_key (part_key row) (rows_of part_key part_reaching t) ≡ Some row → Represents p t → Represents (amending (part_entry row) progress p)
        (amend_in (part_key row) progress t) }
    ensures found { (p : PartsOf) (t : Revised PartRow) (k : ℕ) → Represents p t
        → row_at entry_key k (rows_now p) ≡ option_map part_entry (row_at part_key k (rows_of part_key part_reaching t)) }
{}

/// The parts of a message that are in memory decide whether all its parts are done.
pub fn parts_in_memory_decide_what_is_done()
    ensures { (id : ℕ) (parts : List PartRow) → Few parts → done_to id 20 (map part_entry parts) ≡ all_done id parts }
{}
