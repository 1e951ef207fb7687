//! The SUBMIT of an entry.
ghost use Rattle.std.specs.Prelude.{◌≡◌, ◌<◌, ◌≤◌, length, IfOk};

use sms_base::Octets;
use std::alloc::{AllocError, Global};
use std::marker::Model;

/// The octets of a SUBMIT, 1 to 200, seen by contracts as a list.
#[derive(Drop)]
pub struct SubmitTpdu {
    octets: Octets,
}

impl Model for SubmitTpdu {
    ghost use Rattle.std.specs.Prelude.{ℕ, ◌<◌, ◌≤◌, List, length};

    ghost Value = { List ℕ };

    ghost view = { λ s. s.octets };

    ghost invariant = { λ s. (0 < length s.octets) × (length s.octets ≤ 200) };
}

impl SubmitTpdu {
    /// The octets as a SUBMIT.
    pub fn of(octets: Octets) -> SubmitTpdu
        requires some { 0 < length octets }
        requires few { length octets ≤ 200 }
        ensures { result ≡ octets }
    {
        SubmitTpdu { octets }
    }

    /// The octets in order.
    pub fn as_slice(&self) -> &[u8]
        ensures value { result.now ≡ self.now }
        ensures some { 0 < length self.now }
        ensures few { length self.now ≤ 200 }
    {
        self.octets.as_slice()
    }

    /// A copy of the octets.
    pub fn copy(&self, alloc: Global) -> Result<SubmitTpdu, AllocError>
        ensures { IfOk result (λ copy. copy ≡ self.now) }
    {
        Ok(SubmitTpdu {
            octets: Octets::copy_of(alloc, self.octets.as_slice())?,
        })
    }
}
