//! The links at the seats, as the keeper saw them last.
use crate::refused::RefusedPart;
use crate::shown_links::{SEATS, ShownLinks};
use sms_base::MessageId;
use sms_centre::LinkFigures;
use std::alloc::{AllocError, Global};
use std::sync::atomic::{AtomicBool, AtomicU8, AtomicU64, AtomicUsize, Ordering};

// A cause is a number of seven bits.
const CAUSE_NUMBERS: u8 = 128;

const CAUSES: usize = CAUSE_NUMBERS as usize;

/// So many messages of which a handset refused a part are kept at once. A group has at most so many items, and each refuses one part at most.
pub const MOST_REFUSED: usize = 64;

// No cause has this number.
const NO_CAUSE: u8 = u8::MAX;

// How a seat is that has no link.
const NOTHING: LinkFigures = LinkFigures {
    waiting: 0,
    is_full: false,
    is_under_way: false,
};

#[derive(Drop)]
struct LinkPlace {
    waiting: AtomicUsize,
    is_full: AtomicBool,
    is_under_way: AtomicBool,
    // The last cause by which the handset of the link refused something over it.
    cause: AtomicU8,
}

impl LinkPlace {
    fn put(&self, figures: LinkFigures) {
        self.waiting.store(figures.waiting, Ordering::SeqCst);
        self.is_full.store(figures.is_full, Ordering::SeqCst);
        self.is_under_way
            .store(figures.is_under_way, Ordering::SeqCst);
    }
}

// A message of which a handset refused a part, and the last cause, until somebody takes it.
#[derive(Drop)]
struct RefusedPlace {
    // Its number, or 0 where the place is free.
    message: AtomicU64,
    cause: AtomicU8,
}

impl RefusedPlace {
    // Keeps it, if the place is free or has the same message.
    fn put(&self, number: u64, cause: u8) -> bool {
        let there = self.message.load(Ordering::SeqCst);
        if there != 0 && there != number {
            return false;
        }
        self.cause.store(cause, Ordering::SeqCst);
        self.message.store(number, Ordering::SeqCst);
        true
    }

    // Gives what it keeps, and is free then.
    fn take(&self) -> Option<RefusedPart> {
        let id = MessageId::new(self.message.swap(0, Ordering::SeqCst))?;
        let cause = self.cause.load(Ordering::SeqCst);
        Some(RefusedPart { id, cause })
    }
}

/// The links at the seats, as the keeper saw them last. The keeper puts them here when a link is up, and once a second. Neither side waits for
/// the other.
#[derive(Drop)]
pub struct LinkBoard {
    places: Vec<LinkPlace>,
    // How often handsets refused something by the cause of this number.
    causes: Vec<AtomicU64>,
    // The messages of which handsets refused parts, from the first place on without a gap.
    refused: Vec<RefusedPlace>,
}

/// How often handsets refused something by this cause (3GPP TS 24.011 8.2.5.4).
#[derive(Clone, Copy, PartialEq, Eq)]
pub struct CauseCount {
    pub cause: u8,
    pub count: u64,
}

fn no_causes(alloc: Global) -> Result<Vec<AtomicU64>, AllocError> {
    let mut causes = Vec::with_capacity(alloc, CAUSES)?;
    for _ in 0..CAUSES {
        causes.push(AtomicU64::new(0))?;
    }
    Ok(causes)
}

fn none_refused(alloc: Global) -> Result<Vec<RefusedPlace>, AllocError> {
    let mut refused = Vec::with_capacity(alloc, MOST_REFUSED)?;
    for _ in 0..MOST_REFUSED {
        refused.push(RefusedPlace {
            message: AtomicU64::new(0),
            cause: AtomicU8::new(NO_CAUSE),
        })?;
    }
    Ok(refused)
}

impl LinkBoard {
    /// Nothing waits anywhere.
    pub fn new(alloc: Global) -> Result<LinkBoard, AllocError> {
        let mut places = Vec::with_capacity(alloc, SEATS)?;
        for _ in 0..SEATS {
            places.push(LinkPlace {
                waiting: AtomicUsize::new(0),
                is_full: AtomicBool::new(false),
                is_under_way: AtomicBool::new(false),
                cause: AtomicU8::new(NO_CAUSE),
            })?;
        }
        let causes = no_causes(alloc)?;
        let refused = none_refused(alloc)?;
        Ok(LinkBoard {
            places,
            causes,
            refused,
        })
    }

    /// The handset of the link at the seat of this number refused something by this cause.
    pub(crate) fn count(&self, seat: usize, cause: u8) {
        if let Some(counter) = self.causes.get(usize::from(cause)) {
            counter.fetch_add(1, Ordering::SeqCst);
        }
        self.put_cause(seat, cause);
    }

    fn put_cause(&self, seat: usize, cause: u8) {
        if let Some(place) = self.places.get(seat) {
            place.cause.store(cause, Ordering::SeqCst);
        }
    }

    /// Another link is up at the seat of this number.
    pub(crate) fn begin_link(&self, seat: usize) {
        self.put_cause(seat, NO_CAUSE);
    }

    /// The last cause by which the handset of the link at the seat of this number refused something over that link.
    pub fn last_cause(&self, seat: usize) -> Option<u8> {
        let cause = self.places.get(seat)?.cause.load(Ordering::SeqCst);
        if cause < CAUSE_NUMBERS {
            Some(cause)
        } else {
            None
        }
    }

    /// How often handsets refused something, by the cause.
    pub fn causes(&self, alloc: Global) -> Result<Vec<CauseCount>, AllocError> {
        let mut causes = Vec::new(alloc);
        for (cause, counter) in (0..CAUSE_NUMBERS).zip(self.causes.iter()) {
            let count = counter.load(Ordering::SeqCst);
            if count > 0 {
                causes.push(CauseCount { cause, count })?;
            }
        }
        Ok(causes)
    }

    /// Keeps the message of which a handset refused a part, until somebody takes it. What finds no place is lost.
    pub(crate) fn put_refused(&self, part: RefusedPart) {
        let RefusedPart { id, cause } = part;
        let number = id.number();
        for place in self.refused.iter() {
            if place.put(number, cause) {
                return;
            }
        }
    }

    /// Gives the message of which a handset refused a part that this place keeps, and its last cause. Whoever takes them begins with the
    /// first place, and has all at the first that keeps none. The keeper's thread alone may do so.
    pub fn take_refused(&self, place: usize) -> Option<RefusedPart> {
        self.refused.get(place)?.take()
    }

    /// Puts down how the links at all seats are.
    pub(crate) fn put(&self, shown: &ShownLinks) {
        for (place, figures) in self.places.iter().zip(shown.iter()) {
            place.put(figures.unwrap_or(NOTHING));
        }
    }

    /// How the link at the seat of this number was, if there is such a seat.
    pub fn at(&self, seat: usize) -> Option<LinkFigures> {
        let place = self.places.get(seat)?;
        Some(LinkFigures {
            waiting: place.waiting.load(Ordering::SeqCst),
            is_full: place.is_full.load(Ordering::SeqCst),
            is_under_way: place.is_under_way.load(Ordering::SeqCst),
        })
    }
}
