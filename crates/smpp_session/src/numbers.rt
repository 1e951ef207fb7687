//! Sequence numbers that wait for their answers.
ghost use Rattle.std.specs.Prelude.{◌≡◌, ℕ, List, [], ◌∷◌, ◌++◌, length, ◌<◌, OnOk, OnErr, IfOk, IfSome, IfNone, true, false};
ghost use Rattle.std.specs.List.{remove};
ghost use Rattle.smpp_session.specs.Windows.{is_among, is_none, without};

use std::alloc::{AllocError, Global};
use std::marker::Model;

// Sequence numbers in the order in which they were sent, seen by contracts as a list.
#[derive(Debug, Drop)]
pub(crate) struct SentNumbers {
    items: Vec<u32>,
}

impl Model for SentNumbers {
    ghost Value = { List ℕ };

    ghost view = { λ n. n.items.items };
}

impl SentNumbers {
    // No number.
    pub(crate) fn new(alloc: Global) -> SentNumbers
        ensures { result ≡ [] }
    {
        SentNumbers {
            items: Vec::new(alloc),
        }
    }

    // How many there are.
    pub(crate) fn len(&self) -> usize
        ensures { result ≡ length self.now }
    {
        self.items.len()
    }

    // The same numbers.
    pub(crate) fn copy(&self, alloc: Global) -> Result<SentNumbers, AllocError>
        ensures { IfOk result (λ numbers. numbers ≡ self.now) }
    {
        let mut items = Vec::new(alloc);
        items.extend_from_slice(self.items.as_slice())?;
        Ok(SentNumbers { items })
    }

    // Puts a number at the end.
    pub(crate) fn push(&mut self, number: u32) -> Result<(), AllocError>
        ensures ok { OnOk result (self.new ≡ self.old ++ number ∷ []) }
        ensures err { OnErr result (self.new ≡ self.old) }
    {
        self.items.push(number)?;
        Ok(())
    }

    // Whether the number is there.
    pub(crate) fn contains(&self, number: u32) -> bool
        ensures { result ≡ is_among number self.now }
    {
        place_of(self.items.as_slice(), number).is_some()
    }

    // Takes the number away, and says whether it was there.
    pub(crate) fn take(&mut self, number: u32) -> bool
        ensures found { result ≡ is_among number self.old }
        ensures left { self.new ≡ without number self.old }
        ensures unchanged { result ≡ false → self.new ≡ self.old }
    {
        match place_of(self.items.as_slice(), number) {
            Some(place) => {
                self.items.remove(place);
                true
            }
            None => false,
        }
    }

    // Whether there is none.
    pub(crate) fn is_empty(&self) -> bool
        ensures { result ≡ is_none self.now }
    {
        self.items.is_empty()
    }

    // Whether none is left once this one is taken away.
    pub(crate) fn is_only(&self, number: u32) -> bool
        ensures { result ≡ is_none (without number self.now) }
    {
        match self.items.as_slice() {
            [] => true,
            [first] => *first == number,
            _ => false,
        }
    }

    // No number is left.
    pub(crate) fn clear(&mut self)
        ensures { self.new ≡ [] }
    {
        self.items.clear();
    }
}

// Where the number stands first.
fn place_of(items: &[u32], number: u32) -> Option<usize>
    ensures some { IfSome result (λ i. (i < length items.now) × (is_among number items.now ≡ true) × (without number items.now ≡ remove items.now i)) }
    ensures none { IfNone result ((is_among number items.now ≡ false) × (without number items.now ≡ items.now)) }
{
    for place in 0..items.len() {
        if items[place] == number {
            return Some(place);
        }
    }
    None
}
