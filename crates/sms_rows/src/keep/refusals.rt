//! How many calls a keep refused, and which read.
ghost use Rattle.std.specs.Prelude.{◌≡◌};
ghost use Rattle.sms_rows.specs.keep.Refusing.{no_refusals, with_answer, with_call, with_read};

use crate::table::Key;

/// How many calls a keep refused, and which read last. A program needs none of it. Contracts say by it that a step was
/// refused only where the store refused a call in it.
#[derive(Clone, Copy, PartialEq, Eq)]
pub struct Refusals {
    /// How many there were, modulo 2^64.
    pub calls: u64,
    /// The key of the last read of a body, where that was refused.
    pub read: Option<Key>,
}

impl Refusals {
    /// Nothing was refused yet.
    pub fn none() -> Refusals
        ensures { result ≡ no_refusals }
    {
        Refusals {
            calls: 0,
            read: None,
        }
    }

    /// A call was refused that is no read of a body.
    pub fn call(&mut self)
        ensures { self.new ≡ with_call self.old }
    {
        self.calls = self.calls.wrapping_add(1);
    }

    /// The read of the body of that key was refused.
    pub fn read(&mut self, key: Key)
        ensures { self.new ≡ with_read key self.old }
    {
        self.calls = self.calls.wrapping_add(1);
        self.read = Some(key);
    }

    /// The read of a body was answered.
    pub fn answer(&mut self)
        ensures { self.new ≡ with_answer self.old }
    {
        self.read = None;
    }
}
