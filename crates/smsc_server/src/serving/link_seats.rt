//! Which handset has its link at which seat.
ghost use Rattle.std.specs.Prelude.{◌≡◌, ◌≢◌, ℕ, None, IfOk, IfNone, IfSome, bytes_eq, false, replicate, slice_set, true};
ghost use Rattle.smsc_server.specs.serving.LinkPlaces.{is_at as is_at_of};

use sms_base::Msisdn;
use smsc_observer::SEATS;
use std::alloc::{AllocError, Global};

/// The handset at each seat that has a link.
#[derive(Drop)]
pub(crate) struct LinkSeats {
    handsets: Vec<Option<Msisdn>>,
}

// No link at any seat.
fn no_links(alloc: Global) -> Result<Vec<Option<Msisdn>>, AllocError>
    ensures { IfOk result (λ handsets. handsets.items ≡ replicate 32 None) }
{
    let mut handsets = Vec::with_capacity(alloc, SEATS)?;
    for _ in 0..SEATS {
        handsets.push(None)?;
    }
    Ok(handsets)
}

fn is_same(one: &Msisdn, other: &Msisdn) -> bool
    ensures { result ≡ bytes_eq one.now other.now }
{
    one == other
}

impl LinkSeats {
    /// No link.
    pub(crate) fn new(alloc: Global) -> Result<LinkSeats, AllocError>
        ensures { IfOk result (λ links. links.handsets.items ≡ replicate 32 None) }
    {
        let handsets = no_links(alloc)?;
        Ok(LinkSeats { handsets })
    }

    /// The handset has its link at the seat of this number; none has without one.
    pub(crate) fn put(&mut self, seat: usize, handset: Option<Msisdn>)
        ensures { self.new.handsets.items ≡ slice_set self.old.handsets.items seat handset }
    {
        if let Some(place) = self.handsets.get_mut(seat) {
            *place = handset;
        }
    }

    // Whether the handset has its link at the seat.
    fn is_at(&self, seat: usize, handset: &Msisdn) -> bool
        ensures { result ≡ is_at_of handset.now seat self.now.handsets.items }
    {
        match self.handsets.get(seat) {
            Some(Some(other)) => is_same(other, handset),
            _ => false,
        }
    }

    /// Another seat at which the handset has a link.
    pub(crate) fn other(&self, seat: usize, handset: &Msisdn) -> Option<usize>
        ensures some { IfSome result (λ other. (other ≢ seat) × (is_at_of handset.now other self.now.handsets.items ≡ true)) }
        ensures none { IfNone result ((other : ℕ) → other ≢ seat → is_at_of handset.now other self.now.handsets.items ≡ false) }
    {
        for other in 0..self.handsets.len() {
            if other != seat && self.is_at(other, handset) {
                return Some(other);
            }
        }
        None
    }
}
