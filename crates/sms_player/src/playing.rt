//! A script in play: handsets and a centre on rows in memory, and a network that hands over only what the script says.
//!
//! `Playing` has all that a script led to so far, and at any time represents some course of its definition
//! (`sms_play`). `play_all` plays events while a watcher looks on, and leads from the course to the one after them.
//! `Playing::report` is the report of it. The centre and the handsets are the real cores on keeps in memory, which
//! `sms_world::running` makes of a script's head and lends. Want of memory is reported only where a growth was refused;
//! the play ends then. An event costs what it touches: frames are found by their numbers, and a handset that restarts
//! reads its rows once.
ghost use Rattle.std.specs.Prelude.{◌≡◌, ◌++◌, ◌∷◌, [], OnOk};

mod acts;
mod frames;
mod places;
mod report;
mod sides;
mod watching;

use crate::centre::{PlayedCentre, PlayedHandset};
pub use acts::or_no_memory;
use sms_base::Listed;
use sms_centre_rows::reports::Delivery;
use sms_script::report::{Answer, Answered, FrameRow, GivenRow};
use std::alloc::{AllocError, Global};
use std::marker::Model;
pub use watching::play_all;

/// All that a script has led to so far. Its centre and its handsets are lent to it.
#[derive(Drop)]
pub struct Playing<'a> {
    pub(crate) alloc: Global,
    pub(crate) centre: PlayedCentre<'a>,
    // In the order of the script's head.
    pub(crate) parties: &'a mut [PlayedHandset],
    pub(crate) answers: Listed<Answer>,
    pub(crate) given: Listed<GivenRow>,
    pub(crate) bag: Listed<FrameRow>,
    // The receipts that went to applications, in order.
    pub(crate) delivered: Listed<Delivery>,
}

impl<'a> Model for Playing<'a> {
    ghost use Rattle.sms_player.specs.playing.Played.{PlayingOf};

    ghost Value = { PlayingOf };

    ghost view = { λ p. record { centre = p.centre; parties = p.parties.now; answers = p.answers; given = p.given; bag = p.bag } };
}

impl<'a> Playing<'a> {
    /// The script as it begins.
    pub fn new(
        alloc: Global,
        centre: PlayedCentre<'a>,
        parties: &'a mut [PlayedHandset],
    ) -> Playing<'a>
        ensures { result ≡ record { centre = centre.entry; parties = parties.old; answers = []; given = []; bag = [] } }
    {
        Playing {
            alloc,
            centre,
            parties,
            answers: Listed::new(alloc),
            given: Listed::new(alloc),
            bag: Listed::new(alloc),
            delivered: Listed::new(alloc),
        }
    }

    pub(crate) fn answer(&mut self, event: u64, answered: Answered) -> Result<(), AllocError>
        ensures { OnOk result (self.new ≡ record self.old { answers = self.old.answers ++ record { event = event; answered = answered } ∷ [] }) }
    {
        self.answers.push(Answer { event, answered })
    }
}
