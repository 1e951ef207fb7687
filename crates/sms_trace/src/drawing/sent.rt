//! What crossed the links so far, by which a frame that is sent or arrives again is recognised.
use indexmap::IndexMap;
use sms_base::{Carried, Holder, Kind};
use sms_script::report::{Direction, FrameRow};
use std::alloc::{AllocError, Global};

#[derive(Clone, Copy, PartialEq, Eq, Hash)]
enum UnitKind {
    Data,
    Ack,
    Error,
}

#[derive(Clone, Copy, PartialEq, Eq, Hash)]
enum UnitHolder {
    Part(u64, u8),
    Report(u64),
    Entry(u32),
    Memory(u32),
}

// What a frame carries over the link of the handset in that lane.
#[derive(Clone, Copy, PartialEq, Eq, Hash)]
struct Unit {
    lane: usize,
    is_up: bool,
    kind: UnitKind,
    reference: u8,
    holder: UnitHolder,
}

fn kind_of(kind: Kind) -> UnitKind {
    match kind {
        Kind::Data => UnitKind::Data,
        Kind::Ack => UnitKind::Ack,
        Kind::Error => UnitKind::Error,
    }
}

fn holder_of(holder: Holder) -> UnitHolder {
    match holder {
        Holder::Part(id, number) => UnitHolder::Part(id.number(), number),
        Holder::Report(id) => UnitHolder::Report(id.number()),
        Holder::Entry(number) => UnitHolder::Entry(number),
        Holder::Memory(number) => UnitHolder::Memory(number),
    }
}

fn unit_of(lane: usize, direction: Direction, carried: &Carried) -> Unit {
    Unit {
        lane,
        is_up: direction == Direction::Up,
        kind: kind_of(carried.kind),
        reference: carried.reference,
        holder: holder_of(carried.tag),
    }
}

/// What frames carried, and which of them arrived.
#[derive(Drop)]
pub struct SentSoFar {
    carried: IndexMap<Unit, ()>,
    // The frames that were handed over, by number.
    arrived: IndexMap<u64, ()>,
}

impl SentSoFar {
    /// Nothing was sent yet.
    pub fn nothing(alloc: Global) -> SentSoFar {
        SentSoFar {
            carried: IndexMap::new(alloc),
            arrived: IndexMap::new(alloc),
        }
    }

    /// The frame is sent over the link of the handset in that lane. It answers whether the frame is sent again: an
    /// earlier one carried that unit, for that holder, the same way.
    pub fn send(&mut self, lane: usize, frame: &FrameRow) -> Result<bool, AllocError> {
        let Some(carried) = frame.carried else {
            return Ok(false);
        };
        let unit = unit_of(lane, frame.direction, &carried);
        let earlier = self.carried.insert(unit, ())?;
        Ok(earlier.is_some())
    }

    /// The frame of that number arrives. Whether it arrives again.
    pub fn arrive(&mut self, number: u64) -> Result<bool, AllocError> {
        let earlier = self.arrived.insert(number, ())?;
        Ok(earlier.is_some())
    }

    /// Whether the frame of that number arrived.
    pub fn has_arrived(&self, number: u64) -> bool {
        self.arrived.contains_key(&number)
    }
}
