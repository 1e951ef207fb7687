//! The parts of a content.
ghost use Rattle.std.specs.Prelude.{◌≡◌, List, [], ◌∷◌, ◌++◌, length, OnOk, OnErr, IfOk};
ghost use Rattle.sms_concat.specs.declared.content.Part.{Part as PartOf};

use crate::content::Part;
use std::alloc::{AllocError, Global};
use std::marker::Model;

/// Parts in order, seen by contracts as a list.
#[derive(Drop)]
pub struct Parts {
    items: Vec<Part>,
}

impl Model for Parts {
    ghost Value = { List PartOf };

    ghost view = { λ p. p.items.items };
}

impl Parts {
    /// No parts, with room for that many.
    pub(crate) fn with_capacity(alloc: Global, capacity: usize) -> Result<Parts, AllocError>
        ensures { IfOk result (λ parts. parts ≡ []) }
    {
        let items = Vec::with_capacity(alloc, capacity)?;
        Ok(Parts { items })
    }

    /// The parts of the vector.
    pub fn from_vec(parts: Vec<Part>) -> Parts
        ensures { result ≡ parts.items }
    {
        Parts { items: parts }
    }

    /// The vector that holds the parts.
    pub fn into_vec(self) -> Vec<Part>
        ensures { result.items ≡ self }
    {
        let Parts { items } = self;
        items
    }

    /// The parts in order.
    pub fn as_slice(&self) -> &[Part]
        ensures { result.now ≡ self.now }
    {
        self.items.as_slice()
    }

    /// Puts a part at the end.
    pub fn push(&mut self, part: Part) -> Result<(), AllocError>
        ensures ok { OnOk result (self.new ≡ self.old ++ part ∷ []) }
        ensures err { OnErr result (self.new ≡ self.old) }
    {
        self.items.push(part)?;
        Ok(())
    }
}
