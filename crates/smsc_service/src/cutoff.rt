//! Whether it is too late to begin anything.
use std::sync::atomic::{AtomicBool, Ordering};

/// Whether it is too late for a service to begin anything: the run is to end, and its time for that is nearly over. Whoever runs the service
/// passes the cutoff, and nobody takes that back.
///
/// What is asked behind it fails with ESME_RSYSERR, and nothing is stored of it. So the answers to what was begun before come in time,
/// however slow the disk is.
#[derive(Drop)]
pub struct Cutoff {
    is_past: AtomicBool,
}

impl Cutoff {
    /// A cutoff that is not past.
    pub fn new() -> Cutoff {
        Cutoff {
            is_past: AtomicBool::new(false),
        }
    }

    /// From now on it is too late.
    pub fn pass(&self) {
        self.is_past.store(true, Ordering::SeqCst);
    }

    pub(crate) fn is_past(&self) -> bool {
        self.is_past.load(Ordering::SeqCst)
    }
}
