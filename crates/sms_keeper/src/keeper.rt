//! The keeper, which owns the other end of each seat's queues.
use crate::machine::{Step, Stimulus};
use sms_base::Moment;
use sms_seats::SeatQueues;

mod asking;
mod giving;
mod groups;
mod refusing;
mod seats;

/// Why a term ended.
#[derive(Clone, Copy, PartialEq, Eq)]
pub enum End {
    /// The end mark of each seat was popped.
    AllClosed,
    /// The machine's store refused: it has to be opened again.
    Refused,
}

/// An item whose outs are held until its group is settled.
#[derive(Drop)]
pub(crate) struct HeldItem<J, O> {
    stimulus: Stimulus<J>,
    step: Step<O>,
}

/// Who takes the jobs, asks the machine and gives the answers. It stays with its caller between two terms.
#[derive(Drop)]
pub struct Keeper<J, O> {
    queues: SeatQueues<J, O>,
    // The last tick.
    last: Option<Moment>,
}
