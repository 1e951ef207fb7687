//! Where lanes, rows and notes are in a picture.
ghost use Rattle.std.specs.Prelude.{◌≡◌};
ghost use Rattle.sms_trace_files.specs.picture.Places.{cross_at as cross_point, halfway as halfway_between, heads as heads_of, lane_x as x_of_lane};
ghost use Rattle.sms_trace_files.specs.picture.Places.{names_y as y_of_names, note_at as note_point, on_lane as point_on_lane, row_y as y_of_row};

use crate::picture::markup::Point;

/// The middle of a lane. Lanes are counted from 0, from the left.
pub(crate) fn lane_x(lane: u16) -> u64
    ensures { result ≡ x_of_lane lane }
{
    100 + 180 * u64::from(lane)
}

/// The height of a row. Rows are counted from 0, downwards. There is room for names above each fortieth.
pub(crate) fn row_y(row: u32) -> u64
    ensures { result ≡ y_of_row row }
{
    60 + 24 * u64::from(row) + 30 * (u64::from(row) / 40)
}

/// The height of the names of the lanes, which are repeated: above the first row, the fortieth behind it, and so on.
pub(crate) fn names_y(head: u32) -> u64
    ensures { result ≡ y_of_names head }
{
    30 + 990 * u64::from(head)
}

/// How often the names are there, for so many rows.
pub(crate) fn heads(rows: u32) -> u32
    ensures { result ≡ heads_of rows }
{
    1 + rows.saturating_sub(1) / 40
}

/// Where a lane and a row cross.
pub(crate) fn on_lane(lane: u16, row: u32) -> Point
    ensures { result ≡ point_on_lane lane row }
{
    Point {
        x: lane_x(lane),
        y: row_y(row),
    }
}

/// In a row, the middle between two lanes.
pub(crate) fn halfway(from: u16, to: u16, row: u32) -> Point
    ensures { result ≡ halfway_between from to row }
{
    Point {
        x: (lane_x(from) + lane_x(to)) / 2,
        y: row_y(row),
    }
}

/// Where the note of a row begins, right of so many lanes.
pub(crate) fn note_at(lanes: u16, row: u32) -> Point
    ensures { result ≡ note_point lanes row }
{
    Point {
        x: lane_x(lanes) - 80,
        y: row_y(row) + 4,
    }
}

/// Where the cross of a frame is that never arrives: before its note, where no arrow runs.
pub(crate) fn cross_at(lanes: u16, row: u32) -> Point
    ensures { result ≡ cross_point lanes row }
{
    Point {
        x: lane_x(lanes) - 92,
        y: row_y(row),
    }
}
