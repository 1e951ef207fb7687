//! Laws of pictures, over their definitions alone.
ghost use Rattle.std.specs.Prelude.{◌≡◌, ◌≢◌, ◌<◌, ℕ, List, map, true};
ghost use Rattle.sms_trace_files.specs.picture.Columns.{drawn_before, is_touched};
ghost use Rattle.sms_base.specs.Markup.{escaped};
ghost use Rattle.sms_base.specs.MarkupReading.{IsRead, legible};
ghost use Rattle.sms_trace_files.specs.picture.Places.{cross_at, lane_x, names_y, note_at, row_y};
ghost use Rattle.sms_trace_files.specs.declared.picture.rows.PictureRow.{PictureRow as RowOf};

/// A reader of XML gets each text of a picture as it was, with `?` for what is no printable ASCII. So no name and no note is
/// markup.
pub fn an_escaped_text_is_read_again()
    ensures { (text : List ℕ) → IsRead (escaped text) (map legible text) }
{}

/// No two lanes and no two rows are at one place.
pub fn places_differ()
    ensures lanes { (one other : ℕ) → lane_x one ≡ lane_x other → one ≡ other }
    ensures rows { (one other : ℕ) → row_y one ≡ row_y other → one ≡ other }
{}

/// The cross of a frame that never arrives is right of each lane, so that no arrow runs there, and left of its note.
pub fn crosses_are_apart()
    ensures lanes { (lane lanes row : ℕ) → lane < lanes → lane_x lane < (cross_at lanes row).x }
    ensures note { (lanes row : ℕ) → (cross_at lanes row).x < (note_at lanes row).x }
{}

/// The names of the lanes are on no row.
pub fn names_are_on_no_row()
    ensures { (head row : ℕ) → names_y head ≢ row_y row }
{}

/// A lane that is drawn is left of each later one: lanes that are left out change no order.
pub fn lanes_keep_their_order()
    ensures { (rows : List RowOf) (lane other : ℕ) → lane < other → is_touched rows lane ≡ true →
        lane_x (drawn_before rows lane) < lane_x (drawn_before rows other) }
{}
