//! How many messages a run has forgotten.
//!
//! The archive is told of a message before it goes, in what state that is. A commit has the numbers of those that went.
use sms_base::FinalState;
use sms_centre_rows::messages::MessageRow;
use sms_centre_spec::Changes;
use sms_rows::table::{Change, Key};
use smsc_observer::{NO_MESSAGES, with_message};
use smsc_status::MessageFigures;
use std::alloc::{AllocError, Global};
use std::sync::{Mutex, Wait};

// A message that is to go with the group under way.
#[derive(Clone, Copy)]
struct Going {
    number: u64,
    state: Option<FinalState>,
}

#[derive(Drop)]
struct Tally {
    going: Vec<Going>,
    gone: MessageFigures,
}

impl Tally {
    fn state_of(&self, number: u64) -> Option<FinalState> {
        self.going
            .iter()
            .find(|going| going.number == number)
            .and_then(|going| going.state)
    }

    // The message of that key is gone. One that the archive was not told of is none of these.
    fn remove(&mut self, key: Key) {
        let number = u64::try_from(key.number()).unwrap_or(0);
        let state = self.state_of(number);
        if state.is_some() {
            self.gone = with_message(self.gone, state);
        }
    }

    fn take(&mut self, changes: &Changes) {
        for change in changes.messages.as_slice() {
            if let Change::Remove(key) = change {
                self.remove(*key);
            }
        }
    }
}

/// How many messages a run has forgotten, in each state.
#[derive(Drop)]
pub struct Gone {
    tally: Mutex<Tally>,
}

impl Gone {
    /// None is forgotten.
    pub fn new(alloc: Global) -> Gone {
        Gone {
            tally: Mutex::new(Tally {
                going: Vec::new(alloc),
                gone: NO_MESSAGES,
            }),
        }
    }

    /// The message is to go with the group under way.
    ///
    /// # Errors
    /// There was no memory, and it is not counted as it goes.
    pub fn note<R: Wait>(&self, rt: &R, message: &MessageRow) -> Result<(), AllocError> {
        let going = Going {
            number: message.id.number(),
            state: message.state,
        };
        self.tally.lock(rt).going.push(going)?;
        Ok(())
    }

    /// The group is committed, and changed this.
    pub fn commit<R: Wait>(&self, rt: &R, changes: &Changes) {
        let mut tally = self.tally.lock(rt);
        tally.take(changes);
        tally.going.clear();
    }

    /// The store refused the group.
    pub fn refuse<R: Wait>(&self, rt: &R) {
        self.tally.lock(rt).going.clear();
    }

    /// So many were forgotten.
    pub fn figures<R: Wait>(&self, rt: &R) -> MessageFigures {
        self.tally.lock(rt).gone
    }
}
