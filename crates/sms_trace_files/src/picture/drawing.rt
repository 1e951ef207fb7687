//! A picture as a whole: its lanes, their names, its rows and its legend.
ghost use Rattle.std.specs.Prelude.{◌≡◌, ◌++◌, OnOk, Option, codes, decimal, true, false};
ghost use Rattle.sms_trace_files.specs.picture.Drawing.{drawn_between, drawn_extent, drawn_in_columns, head as head_of, heads_drawn, lanes_drawn, legend};
ghost use Rattle.sms_trace_files.specs.picture.Drawing.{legend_arrow, legend_lost, legend_sign, line_in, name_in, names_drawn, legend_y as y_in_legend, pair};
ghost use Rattle.sms_trace_files.specs.picture.Drawing.{picture_drawn, size as size_of, tall, view_box, wide};
ghost use Rattle.sms_trace_files.specs.declared.picture.rows.Sign.TheVariants.{Tick as TickSign, Act as ActSign, Restart as RestartSign};

use crate::picture::columns::Columns;
use crate::picture::looks::put_looks;
use crate::picture::markup::{Point, put_attribute, put_line, put_sign, put_text};
use crate::picture::places::{heads, lane_x, names_y, row_y};
use crate::picture::rows::{PictureRow, Sign, arrow_class, lost_class, put_rows, sign_word};
use sms_base::{Octets, put_decimal};
use std::alloc::{AllocError, Global};

/// How much a picture has to hold.
#[derive(Clone, Copy)]
pub struct Extent {
    /// How many lanes there are.
    pub lanes: u16,
    /// How many rows there are.
    pub rows: u32,
    /// How many octets the longest note has.
    pub longest: u32,
}

/// A lane: its place from the left, counted from 0, and the name of its side.
#[derive(Drop)]
pub struct Lane {
    pub place: u16,
    pub name: Octets,
}

/// A run to be drawn.
#[derive(Drop)]
pub struct Picture {
    pub extent: Extent,
    pub lanes: Vec<Lane>,
    pub rows: Vec<PictureRow>,
}

impl Extent {
    fn width(&self) -> u64
        ensures { result ≡ wide self.now }
    {
        lane_x(self.lanes) + 8 * u64::from(self.longest)
    }

    fn height(&self) -> u64
        ensures { result ≡ tall self.now }
    {
        row_y(self.rows) + 168
    }
}

// Two numbers, with a space between them.
#[tactic(auto, unfolding(crate::specs::picture::Drawing::pair))]
fn put_pair(out: &mut Octets, one: u64, other: u64) -> Result<(), AllocError>
    ensures { OnOk result (out.new ≡ out.old ++ pair one other) }
{
    put_decimal(out, one)?;
    out.append(b" ")?;
    put_decimal(out, other)
}

// What a viewer shows: from the left upper corner on, all of it.
#[tactic(auto, unfolding(crate::specs::picture::Drawing::view_box))]
fn put_view_box(out: &mut Octets, extent: &Extent) -> Result<(), AllocError>
    ensures { OnOk result (out.new ≡ out.old ++ view_box extent.now) }
{
    out.append(b" viewBox=\"0 0 ")?;
    put_pair(out, extent.width(), extent.height())?;
    out.append(b"\"")?;
    Ok(())
}

// How large a viewer shows it.
#[tactic(auto, unfolding(crate::specs::picture::Drawing::size))]
fn put_size(out: &mut Octets, extent: &Extent) -> Result<(), AllocError>
    ensures { OnOk result (out.new ≡ out.old ++ size_of extent.now) }
{
    put_attribute(out, b"width", extent.width())?;
    put_attribute(out, b"height", extent.height())
}

#[tactic(auto, unfolding(crate::specs::picture::Drawing::head))]
fn put_head(out: &mut Octets, extent: &Extent) -> Result<(), AllocError>
    ensures { OnOk result (out.new ≡ out.old ++ head_of extent.now) }
{
    out.append(b"<svg xmlns=\"http://www.w3.org/2000/svg\"")?;
    put_view_box(out, extent)?;
    put_size(out, extent)?;
    out.append(b">\n")?;
    Ok(())
}

// The line of a lane in that column, down to below the last of so many rows.
#[tactic(auto, unfolding(crate::specs::picture::Drawing::line_in))]
fn put_lane_line(out: &mut Octets, rows: u32, column: Option<u16>) -> Result<(), AllocError>
    ensures { OnOk result (out.new ≡ out.old ++ line_in rows column) }
{
    match column {
        Some(column) => {
            let x = lane_x(column);
            put_line(
                out,
                b"lane",
                Point { x, y: 40 },
                Point { x, y: row_y(rows) },
            )
        }
        None => Ok(()),
    }
}

fn put_lanes(
    out: &mut Octets,
    columns: &Columns,
    rows: u32,
    lanes: &[Lane],
) -> Result<(), AllocError>
    ensures { OnOk result (out.new ≡ out.old ++ lanes_drawn columns.now.table.items rows lanes.now) }
{
    for lane in lanes {
        put_lane_line(out, rows, columns.column(lane.place))?;
    }
    Ok(())
}

// The name of a side, above its lane.
#[tactic(auto, unfolding(crate::specs::picture::Drawing::name_in))]
fn put_name(out: &mut Octets, head: u32, name: &[u8], column: Option<u16>) -> Result<(), AllocError>
    ensures { OnOk result (out.new ≡ out.old ++ name_in head name.now column) }
{
    match column {
        Some(column) => {
            let at = Point {
                x: lane_x(column),
                y: names_y(head),
            };
            put_text(out, b"name", at, name)
        }
        None => Ok(()),
    }
}

fn put_names(
    out: &mut Octets,
    columns: &Columns,
    head: u32,
    lanes: &[Lane],
) -> Result<(), AllocError>
    ensures { OnOk result (out.new ≡ out.old ++ names_drawn columns.now.table.items head lanes.now) }
{
    for lane in lanes {
        put_name(out, head, lane.name.as_slice(), columns.column(lane.place))?;
    }
    Ok(())
}

// The names so often.
fn put_heads(
    out: &mut Octets,
    columns: &Columns,
    lanes: &[Lane],
    heads: u32,
) -> Result<(), AllocError>
    ensures { OnOk result (out.new ≡ out.old ++ heads_drawn columns.now.table.items lanes.now heads) }
{
    for head in 0..heads {
        put_names(out, columns, head, lanes)?;
    }
    Ok(())
}

fn legend_y(rows: u32, place: u8) -> u64
    ensures { result ≡ y_in_legend rows place }
{
    row_y(rows) + 24 * u64::from(place)
}

// An arrow of that class, and what it means.
#[tactic(auto, unfolding(crate::specs::picture::Drawing::legend_arrow))]
fn put_legend_arrow(
    out: &mut Octets,
    rows: u32,
    place: u8,
    class: &str,
    words: &str,
) -> Result<(), AllocError>
    ensures { OnOk result (out.new ≡ out.old ++ legend_arrow rows place class.now words.now) }
{
    let y = legend_y(rows, place);
    put_line(
        out,
        class.as_bytes(),
        Point { x: 40, y },
        Point { x: 100, y },
    )?;
    put_text(out, b"note", Point { x: 116, y: y + 4 }, words.as_bytes())
}

// A sign, and what it means.
#[tactic(auto, unfolding(crate::specs::picture::Drawing::legend_sign))]
fn put_legend_sign(
    out: &mut Octets,
    rows: u32,
    place: u8,
    sign: Sign,
    words: &str,
) -> Result<(), AllocError>
    ensures { OnOk result (out.new ≡ out.old ++ legend_sign rows place sign words.now) }
{
    let y = legend_y(rows, place);
    put_sign(out, sign_word(sign).as_bytes(), Point { x: 70, y })?;
    put_text(out, b"note", Point { x: 116, y: y + 4 }, words.as_bytes())
}

// The broken arrow of what never arrives, and its cross.
#[tactic(auto, unfolding(crate::specs::picture::Drawing::legend_lost))]
fn put_legend_lost(out: &mut Octets, rows: u32, place: u8, words: &str) -> Result<(), AllocError>
    ensures { OnOk result (out.new ≡ out.old ++ legend_lost rows place words.now) }
{
    put_legend_arrow(out, rows, place, lost_class(false), words)?;
    let y = legend_y(rows, place);
    put_sign(out, b"cross", Point { x: 108, y })
}

// What arrows and signs mean.
#[tactic(auto, unfolding(crate::specs::picture::Drawing::legend))]
fn put_legend(out: &mut Octets, rows: u32) -> Result<(), AllocError>
    ensures { OnOk result (out.new ≡ out.old ++ legend rows) }
{
    put_legend_arrow(out, rows, 1, arrow_class(false), "arrives")?;
    put_legend_arrow(
        out,
        rows,
        2,
        arrow_class(true),
        "is sent or handed over again",
    )?;
    put_legend_lost(out, rows, 3, "never arrives")?;
    put_legend_sign(out, rows, 4, Sign::Tick, "a clock ticks")?;
    put_legend_sign(out, rows, 5, Sign::Act, "an owner acts")?;
    put_legend_sign(out, rows, 6, Sign::Restart, "a side starts again")
}

// How much is drawn, in those columns.
fn drawn(columns: &Columns, extent: &Extent) -> Extent
    ensures { result ≡ record { lanes = columns.now.count; rows = extent.now.rows; longest = extent.now.longest } }
{
    Extent {
        lanes: columns.count,
        rows: extent.rows,
        longest: extent.longest,
    }
}

// Lanes, names and rows.
#[tactic(auto, unfolding(crate::specs::picture::Drawing::drawn_between))]
fn put_between(out: &mut Octets, columns: &Columns, picture: &Picture) -> Result<(), AllocError>
    ensures { OnOk result (out.new ≡ out.old
        ++ drawn_between columns.now.table.items
        (record { lanes = columns.now.count; rows = picture.now.extent.rows; longest = picture.now.extent.longest }) picture.now) }
{
    let rows = picture.extent.rows;
    let lanes = picture.lanes.as_slice();
    put_lanes(out, columns, rows, lanes)?;
    put_heads(out, columns, lanes, heads(rows))?;
    put_rows(out, columns, picture.rows.as_slice())
}

#[tactic(auto, unfolding(crate::specs::picture::Drawing::drawn_in_columns))]
fn put_in_columns(out: &mut Octets, columns: &Columns, picture: &Picture) -> Result<(), AllocError>
    ensures { OnOk result (out.new ≡ out.old
        ++ drawn_in_columns columns.now.table.items
        (record { lanes = columns.now.count; rows = picture.now.extent.rows; longest = picture.now.extent.longest }) picture.now) }
{
    let extent = drawn(columns, &picture.extent);
    put_head(out, &extent)?;
    put_looks(out)?;
    put_between(out, columns, picture)?;
    put_legend(out, extent.rows)?;
    out.append(b"</svg>\n")
}

/// The picture as an SVG document.
///
/// A lane that no row touches is left out. Text is escaped, so no name and no note is read as markup.
pub fn put_picture(alloc: Global, out: &mut Octets, picture: &Picture) -> Result<(), AllocError>
    ensures { OnOk result (out.new ≡ out.old ++ picture_drawn picture.now) }
{
    let columns = Columns::of(alloc, picture.rows.as_slice(), picture.extent.lanes)?;
    put_in_columns(out, &columns, picture)
}
