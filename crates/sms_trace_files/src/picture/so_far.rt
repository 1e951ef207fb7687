//! A picture that is put together row by row while a run is played.
use crate::picture::drawing::{Extent, Lane, Picture};
use crate::picture::notes::most_shown;
use crate::picture::rows::{Departure, Passage, PictureRow, Shape, Sign};
use sms_base::Octets;
use std::alloc::{AllocError, Global};

// The legend is as wide as a note of so many octets.
const NARROWEST: u32 = 24;

/// The lanes and rows so far, and in which row each frame was sent.
#[derive(Drop)]
pub struct PictureSoFar {
    alloc: Global,
    picture: Picture,
    // The rows in which frames were sent, by the number of the frame, from 1.
    sent: Vec<u32>,
}

/// From a lane to another. Lanes are counted from 0, from the left.
#[derive(Clone, Copy)]
pub struct Route {
    pub from: u16,
    pub to: u16,
}

impl PictureSoFar {
    /// A picture without lanes and rows.
    pub fn new(alloc: Global) -> PictureSoFar {
        let extent = Extent {
            lanes: 0,
            rows: 0,
            longest: NARROWEST,
        };
        PictureSoFar {
            alloc,
            picture: Picture {
                extent,
                lanes: Vec::new(alloc),
                rows: Vec::new(alloc),
            },
            sent: Vec::new(alloc),
        }
    }

    /// A lane right of those before it.
    pub fn put_lane(&mut self, name: &[u8]) -> Result<(), AllocError> {
        let name = Octets::copy_of(self.alloc, name)?;
        let place = self.picture.extent.lanes;
        self.picture.lanes.push(Lane { place, name })?;
        self.picture.extent.lanes = place.saturating_add(1);
        Ok(())
    }

    fn add_row(&mut self, shape: Shape, note: &[u8]) -> Result<(), AllocError> {
        let place = self.picture.extent.rows;
        let length = most_shown(note.len());
        let note = Octets::copy_of(self.alloc, note)?;
        self.picture.rows.push(PictureRow { place, shape, note })?;
        self.picture.extent.rows = place.saturating_add(1);
        self.picture.extent.longest = self.picture.extent.longest.max(length);
        Ok(())
    }

    /// Something is done in a lane.
    pub fn put_sign(&mut self, lane: u16, sign: Sign, note: &[u8]) -> Result<(), AllocError> {
        self.add_row(Shape::Sign(lane, sign), note)
    }

    /// Something arrives as it is sent.
    pub fn put_exchange(&mut self, route: Route, note: &[u8]) -> Result<(), AllocError> {
        let passage = Passage {
            from: route.from,
            to: route.to,
            begun: self.picture.extent.rows,
            is_again: false,
        };
        self.add_row(Shape::Passage(passage), note)
    }

    /// The next frame is sent. Until it arrives, it never does.
    pub fn put_departure(
        &mut self,
        route: Route,
        is_again: bool,
        note: &[u8],
    ) -> Result<(), AllocError> {
        self.sent.push(self.picture.extent.rows)?;
        let departure = Departure {
            from: route.from,
            to: route.to,
            is_again,
            arrives: false,
        };
        self.add_row(Shape::Departure(departure), note)
    }

    // The frame that was sent in that row arrives: whether it had been sent or handed over before.
    fn note_arrival(&mut self, begun: u32) -> bool {
        match self.picture.rows.get_mut(begun as usize) {
            Some(row) => match &mut row.shape {
                Shape::Departure(departure) => {
                    let is_again = departure.is_again || departure.arrives;
                    departure.arrives = true;
                    is_again
                }
                _ => false,
            },
            None => false,
        }
    }

    /// The frame of that number, from 1, arrives.
    pub fn put_arrival(&mut self, route: Route, frame: u64, note: &[u8]) -> Result<(), AllocError> {
        let place = frame.saturating_sub(1).min(u64::from(u32::MAX)) as usize;
        let begun = match self.sent.get(place) {
            Some(begun) => *begun,
            None => self.picture.extent.rows,
        };
        let is_again = self.note_arrival(begun);
        let passage = Passage {
            from: route.from,
            to: route.to,
            begun,
            is_again,
        };
        self.add_row(Shape::Passage(passage), note)
    }

    /// What is drawn of the run.
    pub fn finish(self) -> Picture {
        let PictureSoFar { picture, .. } = self;
        picture
    }
}
