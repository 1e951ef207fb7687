//! The notes of a picture.
ghost use Rattle.std.specs.Prelude.{◌≡◌, ◌++◌, OnOk, take};
ghost use Rattle.sms_trace_files.specs.picture.Notes.{cut_note, most_shown as most_shown_of, note_element, shown_note};

use crate::picture::markup::{Point, put_text_head};
use sms_base::markup::put_escaped;
use sms_base::{Octets, put_decimal};
use std::alloc::AllocError;

// A longer note is cut behind so many octets.
const MOST: usize = 80;

#[tactic(auto, using(crate::proofs::Fronts::front))]
fn front(note: &[u8]) -> &[u8]
    ensures { result.now ≡ take 80 note.now }
{
    &note[..MOST.min(note.len())]
}

// The front of a note, and how long it is.
#[tactic(auto, unfolding(crate::specs::picture::Notes::cut_note))]
fn put_cut(out: &mut Octets, note: &[u8]) -> Result<(), AllocError>
    ensures { OnOk result (out.new ≡ out.old ++ cut_note note.now) }
{
    put_escaped(out, front(note))?;
    out.append(b" .. (")?;
    put_decimal(out, note.len() as u64)?;
    out.append(b" octets)")
}

fn put_shown(out: &mut Octets, note: &[u8]) -> Result<(), AllocError>
    ensures { OnOk result (out.new ≡ out.old ++ shown_note note.now) }
{
    if MOST < note.len() {
        put_cut(out, note)
    } else {
        put_escaped(out, note)
    }
}

/// A note at a place. A long one is cut, and its length is said.
#[tactic(auto, unfolding(crate::specs::picture::Notes::note_element))]
pub(crate) fn put_note(out: &mut Octets, at: Point, note: &[u8]) -> Result<(), AllocError>
    ensures { OnOk result (out.new ≡ out.old ++ note_element at note.now) }
{
    put_text_head(out, b"note", at)?;
    put_shown(out, note)?;
    out.append(b"</text>\n")
}

/// How many octets a note so long takes at most.
pub(crate) fn most_shown(len: usize) -> u32
    ensures { result ≡ most_shown_of len }
{
    if len <= MOST { len as u32 } else { 113 }
}
