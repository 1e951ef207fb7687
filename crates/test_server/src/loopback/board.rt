//! What sessions know of each other, and the gate that holds one of them.
use sms_keeper::Gate;
use std::sync::atomic::{AtomicBool, AtomicU32, Ordering};
use std::thread;
use std::time::{Clock, Duration};

// So many turns of a millisecond the gate stays shut at most.
const MOST_TURNS: u32 = 10_000;

/// What happened so far. The first session is held, and the others are to be answered meanwhile.
#[derive(Drop)]
pub(crate) struct Board {
    /// How many others there are.
    pub(crate) others: u32,
    /// How many sessions are bound, and had their query answered.
    pub(crate) ready: AtomicU32,
    /// The gate holds whatever is planned next.
    pub(crate) armed: AtomicBool,
    /// The gate holds somebody.
    pub(crate) reached: AtomicBool,
    /// How many others had their enquire_link answered.
    pub(crate) answered: AtomicU32,
    /// All others were answered before the gate was opened.
    pub(crate) in_time: AtomicBool,
    /// How many sessions had their submit answered.
    pub(crate) accepted: AtomicU32,
}

impl Board {
    pub(crate) fn new(others: u32) -> Board {
        Board {
            others,
            ready: AtomicU32::new(0),
            armed: AtomicBool::new(false),
            reached: AtomicBool::new(false),
            answered: AtomicU32::new(0),
            in_time: AtomicBool::new(false),
            accepted: AtomicU32::new(0),
        }
    }
}

/// Holds what comes first once it is armed, until the other sessions are answered, or too many turns are over.
#[derive(Drop)]
pub(crate) struct Held<'a, R> {
    pub(crate) rt: R,
    pub(crate) board: &'a Board,
}

impl<'a, R: Clock> Held<'a, R> {
    fn wait(&self) -> bool {
        for _ in 0..MOST_TURNS {
            if self.board.answered.load(Ordering::SeqCst) == self.board.others {
                return true;
            }
            thread::sleep(&self.rt, Duration::from_millis(1));
        }
        false
    }
}

impl<'a, R: Clock> Gate for Held<'a, R> {
    fn pass(&self) {
        if self.board.armed.swap(false, Ordering::SeqCst) {
            self.board.reached.store(true, Ordering::SeqCst);
            let in_time = self.wait();
            self.board.in_time.store(in_time, Ordering::SeqCst);
        }
    }
}
