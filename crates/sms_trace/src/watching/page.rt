//! Where the rows of a ladder are gathered, and how they are written in the end: as lines of text, or as a picture.
use crate::drawing::shown::put_shown;
use crate::drawing::{Arrow, Row};
use crate::watching::lanes::Lanes;
use sms_base::Octets;
use sms_trace_files::ladder::put_ladder;
use sms_trace_files::picture::{Picture, PictureSoFar, Route, put_picture};
use std::alloc::{AllocError, Global};

/// How a ladder is drawn.
#[derive(Clone, Copy)]
pub enum LadderForm {
    /// A line of text for each row.
    Text,
    /// A picture in SVG.
    Picture,
}

/// The ladder so far.
#[derive(Drop)]
pub(crate) struct Page {
    form: LadderForm,
    picture: PictureSoFar,
}

fn lane_of(lane: usize) -> u16 {
    lane.min(1_000) as u16
}

fn route_of(arrow: &Arrow) -> Route {
    Route {
        from: lane_of(arrow.from),
        to: lane_of(arrow.to),
    }
}

fn put_lane(alloc: Global, picture: &mut PictureSoFar, name: &[u8]) -> Result<(), AllocError> {
    let mut shown = Octets::new(alloc);
    put_shown(&mut shown, name)?;
    picture.put_lane(shown.as_slice())
}

fn put_lanes(alloc: Global, picture: &mut PictureSoFar, lanes: &Lanes) -> Result<(), AllocError> {
    for name in lanes.accounts() {
        put_lane(alloc, picture, name.as_slice())?;
    }
    put_lane(alloc, picture, b"centre")?;
    for number in lanes.handsets() {
        put_lane(alloc, picture, number.as_slice())?;
    }
    Ok(())
}

impl Page {
    /// A page with a lane for each side.
    pub(crate) fn new(alloc: Global, form: LadderForm, lanes: &Lanes) -> Result<Page, AllocError> {
        let mut picture = PictureSoFar::new(alloc);
        put_lanes(alloc, &mut picture, lanes)?;
        Ok(Page { form, picture })
    }

    /// A row that has nothing to do with a frame.
    pub(crate) fn put(&mut self, row: &Row, note: &[u8]) -> Result<(), AllocError> {
        match row {
            Row::Arrow(arrow) => self.picture.put_exchange(route_of(arrow), note),
            Row::Sign(lane, sign) => self.picture.put_sign(lane_of(*lane), *sign, note),
        }
    }

    /// The next frame is sent.
    pub(crate) fn put_departure(
        &mut self,
        arrow: Arrow,
        is_again: bool,
        note: &[u8],
    ) -> Result<(), AllocError> {
        self.picture.put_departure(route_of(&arrow), is_again, note)
    }

    /// The frame of that number arrives.
    pub(crate) fn put_arrival(
        &mut self,
        arrow: Arrow,
        frame: u64,
        note: &[u8],
    ) -> Result<(), AllocError> {
        self.picture.put_arrival(route_of(&arrow), frame, note)
    }

    /// Whether frames that never arrive are listed at the end.
    pub(crate) fn lists_lost(&self) -> bool {
        matches!(self.form, LadderForm::Text)
    }

    /// What is written of it.
    pub(crate) fn finish(self, alloc: Global) -> Result<Octets, AllocError> {
        let Page { form, picture } = self;
        written(alloc, form, &picture.finish())
    }
}

fn written(alloc: Global, form: LadderForm, picture: &Picture) -> Result<Octets, AllocError> {
    let mut out = Octets::new(alloc);
    match form {
        LadderForm::Text => put_ladder(alloc, &mut out, picture)?,
        LadderForm::Picture => put_picture(alloc, &mut out, picture)?,
    }
    Ok(out)
}
