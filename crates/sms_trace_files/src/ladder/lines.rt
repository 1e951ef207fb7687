//! The lines of a ladder.
ghost use Rattle.std.specs.Prelude.{◌≡◌, ◌++◌, ◌-◌, OnOk};
ghost use Rattle.sms_trace_files.specs.ladder.Lines.{departure_at as at_of_departure, gap_marks, lane_mark as mark_of_lane, lane_marks, line_drawn, line_end};
ghost use Rattle.sms_trace_files.specs.ladder.Lines.{lines_drawn, mark_between as between_of, sign_letter as letter_of};

use crate::ladder::arrows::{arrow_at, lost_at};
use crate::picture::columns::Columns;
use crate::picture::rows::{Departure, PictureRow, Shape, Sign};
use sms_base::Octets;
use std::alloc::AllocError;

fn sign_letter(sign: Sign) -> u8
    ensures { result ≡ letter_of sign }
{
    match sign {
        Sign::Tick => b'o',
        Sign::Act => b'*',
        Sign::Restart => b'X',
    }
}

// The sign in a lane, or the lane itself.
fn lane_mark(shape: &Shape, lane: u16) -> u8
    ensures { result ≡ mark_of_lane shape.now lane }
{
    match shape {
        Shape::Passage(_) => b'|',
        Shape::Departure(_) => b'|',
        Shape::Sign(at, sign) => {
            if *at == lane {
                sign_letter(*sign)
            } else {
                b'|'
            }
        }
    }
}

// What is sent breaks off where it never arrives.
fn departure_at(apart: u8, departure: &Departure, place: u32) -> u8
    ensures { result ≡ at_of_departure apart departure.now place }
{
    if departure.arrives {
        arrow_at(false, apart, departure.from, departure.to, place)
    } else {
        lost_at(apart, departure.from, departure.to, place)
    }
}

fn mark_between(apart: u8, shape: &Shape, place: u32) -> u8
    ensures { result ≡ between_of apart shape.now place }
{
    match shape {
        Shape::Passage(passage) => arrow_at(true, apart, passage.from, passage.to, place),
        Shape::Departure(departure) => departure_at(apart, departure, place),
        Shape::Sign(_, _) => b' ',
    }
}

// What is between a lane and the next.
fn put_gap(out: &mut Octets, apart: u8, shape: &Shape, lane: u16) -> Result<(), AllocError>
    ensures { OnOk result (out.new ≡ out.old ++ gap_marks apart shape.now lane (apart - 1)) }
{
    let begin = u32::from(apart) * u32::from(lane);
    for place in 0..apart.saturating_sub(1) {
        out.push(mark_between(apart, shape, begin + u32::from(place) + 1))?;
    }
    Ok(())
}

// The first lane, and so many more.
fn put_lanes(out: &mut Octets, apart: u8, shape: &Shape, more: u16) -> Result<(), AllocError>
    ensures { OnOk result (out.new ≡ out.old ++ lane_marks apart shape.now more) }
{
    out.push(lane_mark(shape, 0))?;
    for lane in 0..more {
        put_gap(out, apart, shape, lane)?;
        out.push(lane_mark(shape, lane + 1))?;
    }
    Ok(())
}

fn put_end(out: &mut Octets, note: &[u8]) -> Result<(), AllocError>
    ensures { OnOk result (out.new ≡ out.old ++ line_end note.now) }
{
    if note.is_empty() {
        return out.append(b"\n");
    }
    out.append(b"  ")?;
    out.append(note)?;
    out.append(b"\n")
}

#[tactic(auto, unfolding(crate::specs::ladder::Lines::line_drawn))]
fn put_line(
    out: &mut Octets,
    columns: &Columns,
    apart: u8,
    row: &PictureRow,
) -> Result<(), AllocError>
    ensures { OnOk result (out.new ≡ out.old ++ line_drawn columns.now.table.items apart columns.now.count row.now) }
{
    let shape = columns.place(&row.shape);
    put_lanes(out, apart, &shape, columns.count.saturating_sub(1))?;
    put_end(out, row.note.as_slice())
}

/// The lines of rows, with lanes that are so many places apart.
pub(crate) fn put_lines(
    out: &mut Octets,
    columns: &Columns,
    apart: u8,
    rows: &[PictureRow],
) -> Result<(), AllocError>
    ensures { OnOk result (out.new ≡ out.old ++ lines_drawn columns.now.table.items apart columns.now.count rows.now) }
{
    for row in rows {
        put_line(out, columns, apart, row)?;
    }
    Ok(())
}
