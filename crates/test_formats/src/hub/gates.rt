//! Gates for tests.
use sms_hub::Gate;
use std::sync::Wait;
use std::sync::atomic::{AtomicBool, Ordering};
use std::thread;

/// A gate that holds the keeper until it is opened.
#[derive(Drop)]
pub struct Held<'a, R: Wait> {
    pub rt: &'a R,
    pub reached: &'a AtomicBool,
    pub opened: &'a AtomicBool,
}

impl<'a, R: Wait> Gate for Held<'a, R> {
    fn pass(&self) {
        self.reached.store(true, Ordering::SeqCst);
        for _ in self.rt.forever() {
            if self.opened.load(Ordering::SeqCst) {
                return;
            }
            thread::yield_now();
        }
        unreachable!()
    }
}
