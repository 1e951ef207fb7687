//! The link to a handset.
ghost use Rattle.std.specs.Prelude.{◌≡◌, IfOk};
ghost use Rattle.sms_centre_rows.specs.waiting.Links.{is_ready, new_link_to};

use sms_base::Msisdn;
use sms_link::{Link, Outgoing, Side};
use std::alloc::{AllocError, Global};

/// A frame to a handset.
#[derive(Drop)]
pub struct Sent {
    pub handset: Msisdn,
    pub frame: Outgoing,
}

/// The link to a handset: the near end, which is the centre's, and whether the handset can be reached.
#[derive(Drop)]
pub struct HandsetLink {
    pub handset: Msisdn,
    pub is_up: bool,
    /// The link was up before a recovery, and is up again at the next tick.
    pub is_awaited: bool,
    /// The handset said that it has no memory (3GPP TS 23.040 9.2.3.22, RP cause 22).
    pub is_full: bool,
    pub near_end: Link,
}

impl HandsetLink {
    /// The link to a handset of which nothing was heard.
    pub fn new(alloc: Global, handset: Msisdn) -> HandsetLink
        ensures { result ≡ new_link_to handset }
    {
        HandsetLink {
            handset,
            is_up: false,
            is_awaited: false,
            is_full: false,
            near_end: Link::new(alloc, Side::Centre),
        }
    }

    /// Whether something may be offered: it is up, the handset has memory, and nothing is under way.
    pub fn is_ready(&self) -> bool
        ensures { result ≡ is_ready self.now }
    {
        self.is_up && !self.is_full && !self.near_end.is_busy()
    }

    /// A copy of the link, in memory of its own.
    pub fn copy(&self) -> Result<HandsetLink, AllocError>
        ensures { IfOk result (λ link. link ≡ self.now) }
    {
        let near_end = self.near_end.copy()?;
        Ok(HandsetLink {
            handset: self.handset,
            is_up: self.is_up,
            is_awaited: self.is_awaited,
            is_full: self.is_full,
            near_end,
        })
    }
}
