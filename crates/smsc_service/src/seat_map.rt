//! Which handset and which session is at which seat.
ghost use Rattle.std.specs.Prelude.{◌≡◌, ◌<◌, IfOk};
ghost use Rattle.sms_centre_spec.specs.declared.jobs.job.Job.TheVariants.{LinkUp};
ghost use Rattle.smsc_service.specs.Seats.{followed, handset_at, is_vacant, link_key, nobody, seat_of, seats_in, bound_session_key};

use crate::number::is_same;
use crate::seat_table::SeatTable;
use sms_base::Msisdn;
use sms_centre_spec::jobs::Job;
use sms_rows::table::{Key, Row};
use std::alloc::{AllocError, Global};

/// The seat of a handset's link.
#[derive(Clone, Copy, PartialEq, Eq)]
pub struct LinkSeat {
    pub seat: u32,
    pub handset: Msisdn,
}

impl Row for LinkSeat {
    ghost key = { link_key };

    fn key(&self) -> Key {
        Key::of(u64::from(self.seat))
    }
}

/// The seat at which a session of an account is bound.
#[derive(Clone, Copy, PartialEq, Eq)]
pub struct BoundSession {
    pub seat: u32,
    pub account: u8,
    pub receives: bool,
}

impl Row for BoundSession {
    ghost key = { bound_session_key };

    fn key(&self) -> Key {
        Key::of(u64::from(self.seat))
    }
}

/// The links that are up and the sessions that are bound, by their seats. It has room for all seats from the start.
#[derive(Drop)]
pub struct SeatMap {
    pub(crate) links: SeatTable<LinkSeat>,
    pub(crate) bound_sessions: SeatTable<BoundSession>,
}

impl SeatMap {
    /// No link, and nobody is bound.
    ///
    /// # Errors
    /// There was no memory for all seats.
    pub fn new(alloc: Global) -> Result<SeatMap, AllocError>
        ensures { IfOk result (λ seat_map. seats_in seat_map ≡ nobody) }
    {
        let links = SeatTable::new(alloc)?;
        match SeatTable::new(alloc) {
            Ok(bound_sessions) => Ok(SeatMap {
                links,
                bound_sessions,
            }),
            Err(error) => {
                drop(links);
                Err(error)
            }
        }
    }

    /// The handset whose link is at the seat.
    pub fn handset_at(&self, seat: u32) -> Option<Msisdn>
        ensures { result ≡ handset_at seat (seats_in self.now).links }
    {
        match self.links.find(Key::of(u64::from(seat))) {
            Some(link) => Some(link.handset),
            None => None,
        }
    }

    /// The seat of the handset's link.
    pub fn seat_of(&self, handset: Msisdn) -> Option<u32>
        ensures { result ≡ seat_of handset (seats_in self.now).links }
    {
        for link in self.links.as_slice() {
            if is_same(&link.handset, &handset) {
                return Some(link.seat);
            }
        }
        None
    }

    /// Whether neither a session nor a link is at the seat.
    pub fn is_vacant(&self, seat: usize) -> bool
        ensures { result ≡ is_vacant seat (seats_in self.now) }
    {
        let key = Key::of(seat as u64);
        self.bound_sessions.find(key).is_none() && self.links.find(key).is_none()
    }

    // The link of the handset is put at the seat, if it is nowhere.
    fn raise(&mut self, seat: u32, handset: Msisdn)
        requires { seat < 32 }
        ensures { seats_in self.new ≡ followed seat (LinkUp handset) (seats_in self.old) }
    {
        match self.seat_of(handset) {
            Some(_) => (),
            None => self.links.put(LinkSeat { seat, handset }),
        }
    }

    /// What the job of the seat changes here.
    pub fn follow(&mut self, seat: u32, job: &Job)
        requires { seat < 32 }
        ensures { seats_in self.new ≡ followed seat job.now (seats_in self.old) }
    {
        match job {
            Job::Bound { account, receives } => self.bound_sessions.put(BoundSession {
                seat,
                account: *account,
                receives: *receives,
            }),
            Job::Unbound => {
                self.bound_sessions.remove(Key::of(u64::from(seat)));
            }
            Job::LinkUp { handset } => self.raise(seat, *handset),
            Job::LinkDown => {
                self.links.remove(Key::of(u64::from(seat)));
            }
            _ => (),
        }
    }

    /// Takes what another one has in place of its own.
    pub fn copy_from(&mut self, other: &SeatMap)
        ensures { seats_in self.new ≡ seats_in other.now }
    {
        self.links.copy_from(&other.links);
        self.bound_sessions.copy_from(&other.bound_sessions);
    }
}
