//! The text of a script, line by line.
use sms_base::Octets;
use sms_script::cutting::Lines;
use std::alloc::{AllocError, Global};

/// A text whose lines are taken one after another.
#[derive(Drop)]
pub struct Text {
    octets: Octets,
    // Where the next line begins.
    next: usize,
}

impl Text {
    /// The text, from its first line on.
    pub fn of(alloc: Global, octets: &[u8]) -> Result<Text, AllocError> {
        let octets = Octets::copy_of(alloc, octets)?;
        Ok(Text { octets, next: 0 })
    }

    /// The next line; empty behind the last.
    pub fn line(&self) -> &[u8] {
        let octets = self.octets.as_slice();
        let mut lines = Lines::of(&octets[self.next.min(octets.len())..]);
        lines.next().unwrap_or(&[])
    }

    /// Leaves it behind.
    pub fn skip(&mut self) {
        let len = self.line().len();
        self.next = self.next.saturating_add(len).saturating_add(1);
    }
}
