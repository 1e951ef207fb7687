//! Rows of a ladder: a lane for each application, for the centre and for each handset.
use sms_trace_files::picture::Sign;

/// From a lane to another. Lanes are counted from 0.
#[derive(Clone, Copy)]
pub struct Arrow {
    pub from: usize,
    pub to: usize,
}

/// A row of a ladder.
#[derive(Clone, Copy)]
pub enum Row {
    /// Something is sent from a lane to another.
    Arrow(Arrow),
    /// Something is done in that lane.
    Sign(usize, Sign),
}

impl Arrow {
    // The same way back.
    fn back(&self) -> Arrow {
        Arrow {
            from: self.to,
            to: self.from,
        }
    }
}

impl Row {
    /// The lane of the side that it reaches.
    pub fn end(&self) -> usize {
        match self {
            Row::Arrow(arrow) => arrow.to,
            Row::Sign(lane, _) => *lane,
        }
    }

    /// The row of an answer to it.
    pub fn answer(&self) -> Row {
        match self {
            Row::Arrow(arrow) => Row::Arrow(arrow.back()),
            Row::Sign(lane, sign) => Row::Sign(*lane, *sign),
        }
    }
}
