//! Octets that are read from left to right.
ghost use Rattle.std.specs.Prelude.{◌≡◌, ◌≤◌, List, ℕ, length, true, [], ◌↔◌};
ghost use Rattle.sms_base.specs.Reading.{Takes, octet_in, run_in, end_in};

use std::marker::Model;

/// The octets that are not read yet, seen by contracts as their list.
///
/// Each call names the fault that it answers, so that every format's reader can use it.
#[derive(Drop)]
pub struct Cursor<'a> {
    rest: &'a [u8],
}

impl<'a> Model for Cursor<'a> {
    ghost Value = { List ℕ };

    ghost view = { λ c. c.rest.now };
}

impl<'a> Cursor<'a> {
    /// A cursor before the octets.
    pub fn of(octets: &'a [u8]) -> Cursor<'a>
        ensures { result ≡ octets.entry.now }
    {
        Cursor { rest: octets }
    }

    /// The octets that are left.
    pub fn rest(&self) -> &'a [u8]
        ensures { result.now ≡ self.now }
    {
        self.rest
    }

    /// How many octets are left.
    pub fn len(&self) -> usize
        ensures { result ≡ length self.now }
    {
        self.rest.len()
    }

    /// Whether no octet is left.
    pub fn is_empty(&self) -> bool
        ensures { (result ≡ true) ↔ (self.now ≡ []) }
    {
        self.rest.is_empty()
    }

    /// Takes the next octet, or answers the fault.
    pub fn octet<E: Copy>(&mut self, fault: E) -> Result<u8, E>
        ensures { Takes (λ x. x) result self.new (octet_in fault self.old) }
    {
        match self.rest {
            [] => Err(fault),
            [octet, rest @ ..] => {
                self.rest = rest;
                Ok(*octet)
            }
        }
    }

    /// Takes that many octets, or answers the fault where fewer are left.
    #[tactic(auto, unfolding(crate::specs::Reading::run_in))]
    pub fn run<E: Copy>(&mut self, count: usize, fault: E) -> Result<&'a [u8], E>
        ensures { Takes (λ x. x.now) result self.new (run_in fault count self.old) }
    {
        if self.rest.len() < count {
            return Err(fault);
        }
        let (front, rest) = self.rest.split_at(count);
        self.rest = rest;
        Ok(front)
    }

    /// Answers the fault where an octet is left.
    pub fn end<E: Copy>(&self, fault: E) -> Result<(), E>
        ensures { result ≡ end_in fault self.now }
    {
        match self.rest {
            [] => Ok(()),
            [_, ..] => Err(fault),
        }
    }
}
