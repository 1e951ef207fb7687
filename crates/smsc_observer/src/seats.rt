//! Who sits at each seat, as the events of a run say one after the other.
ghost use Rattle.std.specs.Prelude.{◌≡◌, IfOk, replicate};
ghost use Rattle.smsc_observer.specs.Occupants.{kind_shown, occupant_behind, seated_at};
ghost use Rattle.smsc_observer.specs.declared.seats.Occupant.TheVariants.{Unknown as NobodyKnown};

use crate::counters::Counters;
use crate::observer::Event;
use crate::seated::SEATS;
use smpp_session::BindKind;
use sms_base::{Moment, Msisdn};
use smsc_loop::Note;
use smsc_status::{SessionKind, SessionLine};
use std::alloc::{AllocError, Global};

// Who sits at a seat.
#[derive(Clone, Copy)]
enum Occupant {
    // Nobody, or somebody who has not said who it is.
    Unknown,
    // A session of the account at this place, bound at that moment.
    Session(u8, SessionKind, Moment),
    // The link of this handset, up since that moment.
    Link(Msisdn, Moment),
}

/// Who sits at each seat.
#[derive(Drop)]
pub struct SeatTable {
    seats: Vec<Occupant>,
}

fn kind_of(kind: BindKind) -> SessionKind
    ensures { result ≡ kind_shown kind }
{
    match kind {
        BindKind::Transmitter => SessionKind::Transmitter,
        BindKind::Receiver => SessionKind::Receiver,
        BindKind::Transceiver => SessionKind::Transceiver,
    }
}

// Who sits there once this happened; none where that changes nothing.
fn occupant_by(note: &Note, now: Moment) -> Option<Occupant>
    ensures { result ≡ occupant_behind now note.now }
{
    match note {
        Note::Bound(account, kind) => Some(Occupant::Session(*account, kind_of(*kind), now)),
        Note::LinkUp(handset) => Some(Occupant::Link(*handset, now)),
        Note::Unbound | Note::Ended(_, _) => Some(Occupant::Unknown),
        _ => None,
    }
}

fn name_text(alloc: Global, names: &[String], account: u8) -> Result<String, AllocError> {
    let mut text = String::new(alloc);
    match names.get(usize::from(account)) {
        Some(name) => text.push_str(name.as_str())?,
        None => text.push_str("?")?,
    }
    Ok(text)
}

// Nobody at any seat.
fn no_occupants(alloc: Global) -> Result<Vec<Occupant>, AllocError>
    ensures { IfOk result (λ seats. seats.items ≡ replicate 32 NobodyKnown) }
{
    let mut seats = Vec::with_capacity(alloc, SEATS)?;
    for _ in 0..SEATS {
        seats.push(Occupant::Unknown)?;
    }
    Ok(seats)
}

impl SeatTable {
    /// Nobody sits anywhere.
    pub fn new(alloc: Global) -> Result<SeatTable, AllocError> {
        let seats = no_occupants(alloc)?;
        Ok(SeatTable { seats })
    }

    // From now on this one sits there, if somebody does by what happened.
    fn put(&mut self, seat: usize, occupant: Option<Occupant>)
        ensures { self.new.seats.items ≡ seated_at seat occupant self.old.seats.items }
    {
        if let Some(occupant) = occupant {
            if let Some(place) = self.seats.get_mut(seat) {
                *place = occupant;
            }
        }
    }

    // Takes what happened to the endpoint at a seat.
    fn take_note(&mut self, seat: usize, note: &Note, now: Moment)
        ensures { self.new.seats.items ≡ seated_at seat (occupant_behind now note.now) self.old.seats.items }
    {
        let occupant = occupant_by(note, now);
        self.put(seat, occupant);
    }

    /// Takes what happened.
    pub fn take(&mut self, event: &Event, now: Moment) {
        if let Event::Endpoint(seat, _, note) = event {
            self.take_note(*seat, note, now);
        }
    }

    /// The sessions that are bound. The names are those of the accounts, by their places.
    pub fn sessions(
        &self,
        alloc: Global,
        names: &[String],
        counters: &Counters,
    ) -> Result<Vec<SessionLine>, AllocError> {
        let mut sessions = Vec::new(alloc);
        for seat in 0..self.seats.len() {
            if let Occupant::Session(account, kind, since) = self.seats[seat] {
                let counts = counters.seat(seat);
                sessions.push(SessionLine {
                    seat,
                    account: name_text(alloc, names, account)?,
                    kind,
                    since,
                    submits: counts.submits,
                    receipts: counts.receipts,
                    window: counts.window,
                })?;
            }
        }
        Ok(sessions)
    }

    /// The handset whose link is up at the seat of this number, and since when.
    pub fn link_at(&self, seat: usize) -> Option<(Msisdn, Moment)> {
        match self.seats.get(seat) {
            Some(Occupant::Link(handset, since)) => Some((*handset, *since)),
            _ => None,
        }
    }
}
