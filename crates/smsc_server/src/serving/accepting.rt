//! Connections, accepted at both ports.
ghost use Rattle.std.specs.Prelude.{◌≡◌, ◌↔◌, ◌-◌, Some, option_map, true};
ghost use Rattle.smsc_arrivals.specs.declared.doors.Doors.{Doors as DoorsOf};
ghost use Rattle.smsc_server.specs.serving.Entering.{HasSameSeats, HaveEntered};

use crate::serving::board::Board;
use crate::serving::clock::milliseconds;
use crate::serving::entrance::Entrance;
use crate::serving::poller::Poller;
use smsc_arrivals::{Door, PeerKind};
use smsc_observer::{Event, Observer};
use std::sync::{Arc, Wait};
use std::thread;
use std::time::{Clock, Duration};

// So many thousandths of a second are waited for a connection at most: an order to end is seen that late.
const LONGEST_WAIT: u64 = 1000;

// And so many where the poller can't be waited for.
const PAUSE: u64 = 80;

// So many lie between two events of one who is not taken.
const TELL: u64 = 1000;

/// Who takes connections, and what it shares with the seats.
#[derive(Drop)]
pub(crate) struct Acceptor<R, L, S: Drop, T> {
    pub(crate) rt: R,
    pub(crate) entrance: Entrance<L, S>,
    pub(crate) poller: Poller,
    pub(crate) board: Arc<Board>,
    pub(crate) observer: Arc<T>,
    /// When it was told last that somebody waits, in milliseconds of the run's clock.
    pub(crate) told: u64,
    /// How many connections are served yet; no end of them where this is none.
    pub(crate) sessions: Option<u32>,
}

// How many are left once one more was taken.
fn one_fewer(sessions: Option<u32>) -> Option<u32>
    ensures { result ≡ option_map (λ left. left - 1) sessions }
{
    match sessions {
        Some(left) => Some(left.saturating_sub(1)),
        None => None,
    }
}

impl<R: Wait + Clock, S: Drop, L: Door<Stream = S>, T: Observer> Acceptor<R, L, S, T> {
    fn has_served_all(&self) -> bool
        ensures { (result ≡ true) ↔ self.now.sessions ≡ Some 0 }
    {
        self.sessions == Some(0)
    }

    // Takes the next connection that waits at that side. Says whether there was one and the seats have it.
    fn take(&mut self, side: PeerKind) -> bool
        ensures entered { (start : DoorsOf L) → HaveEntered L.came start self.old.entrance → HaveEntered L.came start self.new.entrance }
        ensures seats { HasSameSeats self.old.entrance.giver self.new.entrance.giver }
    {
        if self.has_served_all() || !self.board.has_room(side) {
            return false;
        }
        match self.entrance.let_in(&self.rt, &self.board, side) {
            Some(is_given) => {
                self.sessions = one_fewer(self.sessions);
                is_given
            }
            None => false,
        }
    }

    fn pause(&self) {
        thread::sleep(&self.rt, Duration::from_millis(PAUSE));
    }

    // Tells, once a second at most, that somebody waits and why.
    fn tell(&mut self)
        ensures { self.new.entrance ≡ self.old.entrance }
    {
        let now = milliseconds(&self.rt);
        if now.saturating_sub(self.told) < TELL {
            return;
        }
        self.told = now;
        if self.board.is_full_of_some() {
            let seated = self.board.seated(&self.rt);
            self.observer.observe(&Event::SeatsFull(seated));
        } else {
            self.observer.observe(&Event::NotAccepted);
        }
    }

    // Waits until a connection waits at a port, and says whether one does. Where one waited already and could not be taken, as where its
    // side has no seat or the system no further file, it is left for a moment.
    fn wait_for_some(&mut self, is_left: bool) -> bool
        ensures { self.new.entrance ≡ self.old.entrance }
    {
        self.board.let_wait(is_left && self.board.is_full_of_some());
        if is_left {
            self.tell();
            self.pause();
        }
        match self.poller.look(Duration::from_millis(LONGEST_WAIT)) {
            Some(waits) => waits,
            None => {
                self.pause();
                false
            }
        }
    }

    // Waits until a seat is free. Whoever waits at a port meanwhile stays there, and is known to wait.
    fn wait_for_seat(&mut self)
        ensures { self.new.entrance ≡ self.old.entrance }
    {
        if let Some(others_wait) = self.poller.look(Duration::from_millis(0)) {
            self.board.let_wait(others_wait);
            if others_wait {
                self.tell();
            }
        }
        // Whoever rose before has rung already.
        if self.board.is_full() && !self.poller.wait(Duration::from_millis(LONGEST_WAIT)) {
            self.pause();
        }
    }

    // Whether another connection is to be taken.
    fn may_continue(&self) -> bool {
        !self.has_served_all() && !self.board.is_ending()
    }

    // Takes the next connection that waits at each side. Says of which there was one and the seats have it.
    fn take_both(&mut self) -> (bool, bool)
        ensures entered { (start : DoorsOf L) → HaveEntered L.came start self.old.entrance → HaveEntered L.came start self.new.entrance }
        ensures seats { HasSameSeats self.old.entrance.giver self.new.entrance.giver }
    {
        let first = self.take(PeerKind::Application);
        let second = self.take(PeerKind::Handset);
        (first, second)
    }

    // Whether nobody was taken, though there is a seat.
    fn took_none(&mut self) -> bool
        ensures entered { (start : DoorsOf L) → HaveEntered L.came start self.old.entrance → HaveEntered L.came start self.new.entrance }
        ensures seats { HasSameSeats self.old.entrance.giver self.new.entrance.giver }
    {
        let (first, second) = self.take_both();
        !first && !second && self.may_continue() && !self.board.is_full()
    }

    // Takes the connections that wait, or waits for one, or for a seat. Says whether one was left.
    fn turn(&mut self, is_left: bool) -> bool
        ensures entered { (start : DoorsOf L) → HaveEntered L.came start self.old.entrance → HaveEntered L.came start self.new.entrance }
        ensures seats { HasSameSeats self.old.entrance.giver self.new.entrance.giver }
    {
        if self.board.is_full() {
            self.wait_for_seat();
        }
        if !self.took_none() {
            return false;
        }
        self.wait_for_some(is_left)
    }

    // Takes so many connections, each as a seat is free for it.
    fn accept_so_many(&mut self)
        ensures entered { (start : DoorsOf L) → HaveEntered L.came start self.old.entrance → HaveEntered L.came start self.new.entrance }
        ensures seats { HasSameSeats self.old.entrance.giver self.new.entrance.giver }
    {
        let mut is_left = false;
        for _ in 0..u64::MAX {
            if !self.may_continue() {
                return;
            }
            is_left = self.turn(is_left);
        }
    }
}

/// Takes so many connections, and then tells the seats that no more come.
pub(crate) fn accept_all<R: Wait + Clock + Copy, S: Drop, L: Door<Stream = S>, T: Observer + Drop>(
    acceptor: Acceptor<R, L, S, T>,
) -> Entrance<L, S>
    ensures entered { (start : DoorsOf L) → HaveEntered L.came start acceptor.entrance → HaveEntered L.came start result }
    ensures seats { HasSameSeats acceptor.entrance.giver result.giver }
{
    let mut acceptor = acceptor;
    acceptor.accept_so_many();
    let Acceptor { rt, entrance, .. } = acceptor;
    let mut entrance = entrance;
    entrance.close(&rt);
    entrance
}
