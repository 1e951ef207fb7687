//! Whether the rows of a handset are sound.
ghost use Rattle.std.specs.Prelude.{◌≡◌, ◌↔◌, ◌&&◌, true};
ghost use Rattle.sms_handset.specs.SoundRows.{IsSetup, IsSound};
ghost use Rattle.sms_handset.specs.SoundnessTest.{KeysRise, are_few as are_few_of, inbox_passes as inbox_passes_of, outbox_passes as outbox_passes_of};

use sms_handset_draft::Rows;
use sms_handset_rows::inbox::{are_entries, are_last, are_marks, are_of_open_groups};
use sms_handset_rows::outbox::{are_out_entries, message_references_differ, references_differ};
use sms_rows::table::rises;

fn keys_rise(rows: &Rows) -> bool
    ensures { (result ≡ true) ↔ KeysRise rows.now }
{
    let entries = rises(rows.entries.as_slice());
    let last = rises(rows.last.as_slice());
    let outbox = rises(rows.outbox.as_slice());
    let marks = rises(rows.marks.as_slice());
    entries && last && outbox && marks
}

// Whether they are few enough to be looked at one with another.
fn are_few(rows: &Rows) -> bool
    ensures { result ≡ are_few_of rows.now }
{
    rows.entries.len() <= 255 && rows.outbox.len() <= 20 && rows.marks.len() <= 64
}

fn inbox_passes(rows: &Rows) -> bool
    ensures { result ≡ inbox_passes_of rows.now }
{
    let next = rows.counters.entry;
    let entries = rows.entries.as_slice();
    0 < next
        && are_entries(next, entries)
        && are_of_open_groups(entries, rows.marks.as_slice())
        && are_last(rows.last.as_slice())
}

fn outbox_passes(rows: &Rows) -> bool
    ensures { result ≡ outbox_passes_of rows.now }
{
    let next = rows.counters.entry;
    let entries = rows.entries.as_slice();
    let outbox = rows.outbox.as_slice();
    are_out_entries(next, entries, outbox)
        && message_references_differ(outbox)
        && references_differ(outbox)
        && are_marks(next, entries, rows.marks.as_slice())
}

/// Whether the rows are sound. It takes no memory, and time that grows with the rows. At most 255 entries of the inbox,
/// 20 of the outbox and 64 discarded groups are compared with each other.
#[tactic(auto, using(crate::proofs::Soundness::told, crate::proofs::Soundness::too_many_rows))]
pub(crate) fn are_sound(rows: &Rows) -> bool
    requires { IsSetup rows.now.setup }
    ensures { (result ≡ true) ↔ IsSound rows.now }
{
    if !are_few(rows) {
        return false;
    }
    let rise = keys_rise(rows);
    let inbox = inbox_passes(rows);
    let outbox = outbox_passes(rows);
    all_hold(rise, inbox, outbox)
}

fn all_hold(first: bool, second: bool, third: bool) -> bool
    ensures { result ≡ (first && (second && third)) }
{
    first && second && third
}
