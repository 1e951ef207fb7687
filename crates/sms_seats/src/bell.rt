//! What wakes a seat.
use std::alloc::Global;
use std::sync::Arc;
use std::thread::Parker;

/// Wakes the thread of a seat, from another one. A ring is kept while that thread does something else, and its next wait returns at
/// once.
#[derive(Drop)]
pub struct Bell {
    pub(crate) parker: Arc<Parker, Global>,
}

impl Bell {
    /// Wakes the seat, if it waits; else its next wait.
    pub fn ring(&self) {
        self.parker.unpark();
    }
}
