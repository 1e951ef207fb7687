//! The rows of a picture.
ghost use Rattle.std.specs.Prelude.{◌≡◌, ◌++◌, OnOk};
ghost use Rattle.sms_trace_files.specs.picture.Rows.{arrow_class as class_of_arrow, departure_drawn, lost_class as class_of_lost, lost_drawn, passage_drawn};
ghost use Rattle.sms_trace_files.specs.picture.Rows.{row_drawn, rows_drawn, shape_drawn, sign_word as word_of_sign};

use crate::picture::columns::Columns;
use crate::picture::markup::{put_line, put_sign};
use crate::picture::notes::put_note;
use crate::picture::places::{cross_at, halfway, note_at, on_lane};
use sms_base::Octets;
use std::alloc::AllocError;

/// What reaches a lane: it left the lane `from` at the row `begun`.
#[derive(Clone, Copy)]
pub struct Passage {
    pub from: u16,
    pub to: u16,
    pub begun: u32,
    /// Whether it was sent or handed over before.
    pub is_again: bool,
}

/// What leaves the lane `from` towards the lane `to`.
#[derive(Clone, Copy)]
pub struct Departure {
    pub from: u16,
    pub to: u16,
    /// Whether it was sent before.
    pub is_again: bool,
    /// Whether it reaches the lane `to`, in a row below.
    pub arrives: bool,
}

/// What is done in one lane.
#[derive(Clone, Copy, PartialEq, Eq)]
pub enum Sign {
    /// The clock of that side ticks.
    Tick,
    /// An act of its owner.
    Act,
    /// The side starts again.
    Restart,
}

/// What a row draws beside its note.
#[derive(Clone, Copy)]
pub enum Shape {
    Passage(Passage),
    Departure(Departure),
    Sign(u16, Sign),
}

/// A row: its place from the top, counted from 0, what it draws, and its note.
#[derive(Drop)]
pub struct PictureRow {
    pub place: u32,
    pub shape: Shape,
    pub note: Octets,
}

pub(crate) fn arrow_class(is_again: bool) -> &'static str
    ensures { result.now ≡ class_of_arrow is_again }
{
    if is_again { "again" } else { "arrow" }
}

pub(crate) fn lost_class(is_again: bool) -> &'static str
    ensures { result.now ≡ class_of_lost is_again }
{
    if is_again { "again lost" } else { "arrow lost" }
}

pub(crate) fn sign_word(sign: Sign) -> &'static str
    ensures { result.now ≡ word_of_sign sign }
{
    match sign {
        Sign::Tick => "tick",
        Sign::Act => "act",
        Sign::Restart => "restart",
    }
}

// An arrow from where it was sent to where it arrives.
fn put_passage(out: &mut Octets, row: u32, passage: &Passage) -> Result<(), AllocError>
    ensures { OnOk result (out.new ≡ out.old ++ passage_drawn row passage.now) }
{
    let from = on_lane(passage.from, passage.begun);
    let to = on_lane(passage.to, row);
    put_line(out, arrow_class(passage.is_again).as_bytes(), from, to)
}

// Half of a broken arrow, and its cross.
#[tactic(auto, unfolding(crate::specs::picture::Rows::lost_drawn))]
fn put_lost(out: &mut Octets, lanes: u16, row: u32, departure: &Departure) -> Result<(), AllocError>
    ensures { OnOk result (out.new ≡ out.old ++ lost_drawn lanes row departure.now) }
{
    let from = on_lane(departure.from, row);
    let end = halfway(departure.from, departure.to, row);
    put_line(out, lost_class(departure.is_again).as_bytes(), from, end)?;
    put_sign(out, b"cross", cross_at(lanes, row))
}

// A dot where it arrives in a later row.
fn put_departure(
    out: &mut Octets,
    lanes: u16,
    row: u32,
    departure: &Departure,
) -> Result<(), AllocError>
    ensures { OnOk result (out.new ≡ out.old ++ departure_drawn lanes row departure.now) }
{
    if departure.arrives {
        put_sign(out, b"dot", on_lane(departure.from, row))
    } else {
        put_lost(out, lanes, row, departure)
    }
}

fn put_shape(out: &mut Octets, lanes: u16, row: u32, shape: &Shape) -> Result<(), AllocError>
    ensures { OnOk result (out.new ≡ out.old ++ shape_drawn lanes row shape.now) }
{
    match shape {
        Shape::Passage(passage) => put_passage(out, row, passage),
        Shape::Departure(departure) => put_departure(out, lanes, row, departure),
        Shape::Sign(lane, sign) => {
            put_sign(out, sign_word(*sign).as_bytes(), on_lane(*lane, row))
        }
    }
}

// A row of a picture with those columns.
#[tactic(auto, unfolding(crate::specs::picture::Rows::row_drawn))]
fn put_whole_row(out: &mut Octets, columns: &Columns, row: &PictureRow) -> Result<(), AllocError>
    ensures { OnOk result (out.new ≡ out.old ++ row_drawn columns.now.table.items columns.now.count row.now) }
{
    let shape = columns.place(&row.shape);
    put_shape(out, columns.count, row.place, &shape)?;
    put_note(out, note_at(columns.count, row.place), row.note.as_slice())
}

/// The rows of a picture with those columns.
pub(crate) fn put_rows(
    out: &mut Octets,
    columns: &Columns,
    rows: &[PictureRow],
) -> Result<(), AllocError>
    ensures { OnOk result (out.new ≡ out.old ++ rows_drawn columns.now.table.items columns.now.count rows.now) }
{
    for row in rows {
        put_whole_row(out, columns, row)?;
    }
    Ok(())
}
