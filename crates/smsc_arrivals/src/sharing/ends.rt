//! The ends of the queue.
ghost use Rattle.std.specs.Prelude.{◌≡◌, ◌≤◌, length};
ghost use Rattle.crossbeam_channel.specs.Claims.{view, IsSeatAt};
ghost use Rattle.crossbeam_channel.specs.Ends.{receives_on, sends_on};
ghost use Rattle.smsc_arrivals.specs.Sharing.{giver_view, taker_view};

use crate::sharing::{SharesPass, SharesView, Sharing};
use crossbeam_channel::{RuledReceiver, RuledSender};

/// The end of whoever gives.
#[derive(Drop)]
pub struct Giver<T: Drop> {
    pub(crate) sender: RuledSender<T, SharesView<T>, Sharing>,
    pub(crate) receiver: RuledReceiver<T, SharesView<T>, Sharing>,
    pub(crate) pass: SharesPass<T>,
    ghost seated: { IsSeatAt (sends_on sender) pass },
    ghost same: { receives_on receiver ≡ sends_on sender },
    ghost gives: { view pass ≡ giver_view (view pass).made (view pass).given (view pass).settled (view pass).returned },
    ghost few: { length (view pass).settled ≤ (view pass).made },
}

/// The end of a seat.
#[derive(Drop)]
pub struct Taker<T: Drop> {
    pub(crate) receiver: RuledReceiver<T, SharesView<T>, Sharing>,
    pub(crate) pass: SharesPass<T>,
    ghost seated: { IsSeatAt (receives_on receiver) pass },
    ghost takes: { view pass ≡ taker_view (view pass).seat (view pass).taken },
}
