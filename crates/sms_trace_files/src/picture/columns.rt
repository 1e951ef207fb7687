//! The columns in which the lanes of a picture are drawn. A lane that no row touches is left out.
ghost use Rattle.std.specs.Prelude.{◌≡◌, IfOk, Some, None, if◌then◌else◌};
ghost use Rattle.sms_trace_files.specs.picture.Columns.{column as column_of, column_in, columns as columns_of, drawn_before, drawn_in};
ghost use Rattle.sms_trace_files.specs.picture.Columns.{is_touched as is_touched_by, placed, touches as touches_lane};

use crate::picture::rows::{Departure, Passage, PictureRow, Shape};
use std::alloc::{AllocError, Global};

/// The column of each lane, none of a lane that is left out; and how many columns there are.
#[derive(Drop)]
pub(crate) struct Columns {
    pub table: Vec<Option<u16>>,
    pub count: u16,
}

fn touches(shape: &Shape, lane: u16) -> bool
    ensures { result ≡ touches_lane lane shape.now }
{
    match shape {
        Shape::Passage(passage) => passage.from == lane || passage.to == lane,
        Shape::Departure(departure) => departure.from == lane || departure.to == lane,
        Shape::Sign(at, _) => *at == lane,
    }
}

fn is_touched(rows: &[PictureRow], lane: u16) -> bool
    ensures { result ≡ is_touched_by rows.now lane }
{
    for row in rows {
        if touches(&row.shape, lane) {
            return true;
        }
    }
    false
}

// The column of a lane behind so many that are drawn.
fn column(rows: &[PictureRow], lane: u16, before: u16) -> Option<u16>
    ensures { result ≡ (if is_touched_by rows.now lane then Some before else None) }
{
    if is_touched(rows, lane) {
        Some(before)
    } else {
        None
    }
}

impl Columns {
    /// The columns of so many lanes, in a picture of those rows.
    pub(crate) fn of(alloc: Global, rows: &[PictureRow], lanes: u16) -> Result<Columns, AllocError>
        ensures table { IfOk result (λ columns. columns.table.items ≡ columns_of rows.now lanes) }
        ensures count { IfOk result (λ columns. columns.count ≡ drawn_before rows.now lanes) }
    {
        let mut table = Vec::new(alloc);
        let mut count = 0u16;
        for lane in 0..lanes {
            let column = column(rows, lane, count);
            table.push(column)?;
            if column.is_some() {
                count += 1;
            }
        }
        Ok(Columns { table, count })
    }

    /// The column of a lane; none where it is left out.
    pub(crate) fn column(&self, lane: u16) -> Option<u16>
        ensures { result ≡ column_in self.now.table.items lane }
    {
        match self.table.get(usize::from(lane)) {
            Some(column) => *column,
            None => None,
        }
    }

    /// The column of a lane that is drawn.
    pub(crate) fn drawn(&self, lane: u16) -> u16
        ensures { result ≡ drawn_in self.now.table.items lane }
    {
        self.column(lane).unwrap_or(0)
    }

    /// A shape between columns in place of lanes.
    pub(crate) fn place(&self, shape: &Shape) -> Shape
        ensures { result ≡ placed self.now.table.items shape.now }
    {
        match shape {
            Shape::Passage(passage) => Shape::Passage(Passage {
                from: self.drawn(passage.from),
                to: self.drawn(passage.to),
                begun: passage.begun,
                is_again: passage.is_again,
            }),
            Shape::Departure(departure) => Shape::Departure(Departure {
                from: self.drawn(departure.from),
                to: self.drawn(departure.to),
                is_again: departure.is_again,
                arrives: departure.arrives,
            }),
            Shape::Sign(at, sign) => Shape::Sign(self.drawn(*at), *sign),
        }
    }
}
