//! What is pending in a run, by handset.
//!
//! A commit has the rows that it changes. So a run keeps of each message that is pending for which handset it is and when it was
//! submitted, and of each of its parts that waits how often it failed and when it is offered next.
use sms_base::{MessageId, Moment, Msisdn, earlier};
use sms_centre_rows::messages::{MessageRow, PartRow};
use sms_centre_rows::waiting::{Progress, Revision};
use sms_centre_spec::{Changes, Rows};
use sms_rows::table::{Change, Key};
use std::alloc::{AllocError, Global};
use std::collections::{BTreeMap, BTreeSet};
use std::sync::{Mutex, Wait};

// A part that waits for its handset.
#[derive(Clone, Copy)]
struct WaitingPart {
    message: u64,
    number: u8,
    failed: u8,
    due: Moment,
    submitted: Moment,
}

// What waits for a handset.
#[derive(Drop)]
struct Shelf {
    handset: Msisdn,
    parts: Vec<WaitingPart>,
}

/// A handset for which parts of messages wait.
#[derive(Clone, Copy, PartialEq, Eq)]
pub struct WaitingHandset {
    pub handset: Msisdn,
    /// How many parts wait for it.
    pub waiting: u64,
    /// When the oldest of their messages was submitted.
    pub since: Moment,
    /// How often the part failed that failed most often.
    pub failed: u8,
    /// When the next of them is offered.
    pub due: Moment,
}

/// A message that is pending.
#[derive(Clone, Copy, PartialEq, Eq)]
pub struct Pending {
    pub id: MessageId,
    pub handset: Msisdn,
    pub submitted: Moment,
}

// What is pending. The key of a shelf is that of its handset.
#[derive(Drop)]
struct Tally {
    alloc: Global,
    messages: BTreeMap<u64, Pending>,
    shelves: BTreeMap<u128, Shelf>,
    // The handsets for which something waits, that of most first.
    most_first: BTreeSet<u128>,
}

// No key of a handset, which has up to 20 digits, is as great: 16 to the power of 20.
const HANDSETS: u128 = 1_208_925_819_614_629_174_706_176;

// So many parts wait for a handset at most (TP-MR has eight bits, 3GPP TS 23.040 9.2.3.6).
const MOST_PARTS: usize = 256;

// The place of a handset for which so much waits.
fn place_of(waiting: usize, handset: u128) -> u128 {
    let less = MOST_PARTS.saturating_sub(waiting) as u128;
    less * HANDSETS + handset % HANDSETS
}

// The key of the handset that has the place.
fn handset_at(place: u128) -> u128 {
    place % HANDSETS
}

// The number of the message of that key.
fn number_of(key: Key) -> u64 {
    u64::try_from(key.number()).unwrap_or(0)
}

// The number of the message of a part's key, and that of the part.
fn numbers_of(key: Key) -> (u64, u8) {
    let number = key.number();
    let message = u64::try_from(number / 256).unwrap_or(0);
    (message, (number % 256) as u8)
}

impl Shelf {
    fn place(&self, message: u64, number: u8) -> Option<usize> {
        self.parts
            .iter()
            .position(|part| part.message == message && part.number == number)
    }

    // The part of this message and number waits no more.
    fn remove(&mut self, message: u64, number: u8) {
        if let Some(place) = self.place(message, number) {
            if place < self.parts.len() {
                let _ = self.parts.swap_remove(place);
            }
        }
    }

    // One more part waits, or that of its message and number waits otherwise.
    fn put(&mut self, part: WaitingPart) -> Result<(), AllocError> {
        self.remove(part.message, part.number);
        self.parts.push(part)?;
        Ok(())
    }

    // No part of the message waits any more.
    fn withdraw(&mut self, message: u64) {
        self.parts.retain(|part| part.message != message);
    }

    fn since(&self, first: Moment) -> Moment {
        let mut since = first;
        for part in self.parts.iter() {
            since = earlier(since, part.submitted);
        }
        since
    }

    fn failed(&self) -> u8 {
        let mut failed = 0u8;
        for part in self.parts.iter() {
            failed = failed.max(part.failed);
        }
        failed
    }

    fn due(&self, first: Moment) -> Moment {
        let mut due = first;
        for part in self.parts.iter() {
            due = earlier(due, part.due);
        }
        due
    }

    // What waits for the handset, if anything does.
    fn figures(&self) -> Option<WaitingHandset> {
        let first = self.parts.as_slice().first()?;
        Some(WaitingHandset {
            handset: self.handset,
            waiting: self.parts.len() as u64,
            since: self.since(first.submitted),
            failed: self.failed(),
            due: self.due(first.due),
        })
    }
}

impl Tally {
    fn new(alloc: Global) -> Tally {
        Tally {
            alloc,
            messages: BTreeMap::new(alloc),
            shelves: BTreeMap::new(alloc),
            most_first: BTreeSet::new(alloc),
        }
    }

    fn pending(&self, message: u64) -> Option<Pending> {
        self.messages.get(&message).copied()
    }

    // The shelf of the handset is taken away. An empty one where it has none.
    fn take_shelf(&mut self, handset: &Msisdn) -> Shelf {
        let key = Key::handset(handset).number();
        match self.shelves.remove(&key) {
            Some(shelf) => {
                let _ = self.most_first.remove(&place_of(shelf.parts.len(), key));
                shelf
            }
            None => Shelf {
                handset: *handset,
                parts: Vec::new(self.alloc),
            },
        }
    }

    // The shelf becomes that of its handset, unless it is empty.
    fn put_shelf(&mut self, shelf: Shelf) -> Result<(), AllocError> {
        if shelf.parts.is_empty() {
            drop(shelf);
            return Ok(());
        }
        let key = Key::handset(&shelf.handset).number();
        self.most_first.insert(place_of(shelf.parts.len(), key))?;
        self.shelves.insert(key, shelf)?;
        Ok(())
    }

    // The message is pending from now on.
    fn begin(&mut self, message: &MessageRow) -> Result<(), AllocError> {
        let pending = Pending {
            id: message.id,
            handset: message.handset,
            submitted: message.submitted,
        };
        self.messages.insert(message.id.number(), pending)?;
        Ok(())
    }

    // The message is not pending any more.
    fn end(&mut self, message: u64) -> Result<(), AllocError> {
        let Some(pending) = self.messages.remove(&message) else {
            return Ok(());
        };
        let mut shelf = self.take_shelf(&pending.handset);
        shelf.withdraw(message);
        self.put_shelf(shelf)
    }

    // A part of a message that is pending is so far now.
    fn note(
        &mut self,
        pending: &Pending,
        number: u8,
        progress: Progress,
    ) -> Result<(), AllocError> {
        let message = pending.id.number();
        let mut shelf = self.take_shelf(&pending.handset);
        if progress.is_done {
            shelf.remove(message, number);
        } else {
            shelf.put(WaitingPart {
                message,
                number,
                failed: progress.attempts,
                due: progress.due,
                submitted: pending.submitted,
            })?;
        }
        self.put_shelf(shelf)
    }

    // A part of a message that is not pending is none of these.
    fn note_part(
        &mut self,
        message: u64,
        number: u8,
        progress: Progress,
    ) -> Result<(), AllocError> {
        match self.pending(message) {
            Some(pending) => self.note(&pending, number, progress),
            None => Ok(()),
        }
    }

    fn drop_part(&mut self, message: u64, number: u8) -> Result<(), AllocError> {
        let Some(pending) = self.pending(message) else {
            return Ok(());
        };
        let mut shelf = self.take_shelf(&pending.handset);
        shelf.remove(message, number);
        self.put_shelf(shelf)
    }

    fn revise(&mut self, revision: &Revision<PartRow>) -> Result<(), AllocError> {
        match revision {
            Revision::Put(part) => self.note_part(part.id.number(), part.number, part.progress),
            Revision::Amend { key, progress } => {
                let (message, number) = numbers_of(*key);
                self.note_part(message, number, *progress)
            }
            Revision::Remove(key) => {
                let (message, number) = numbers_of(*key);
                self.drop_part(message, number)
            }
        }
    }

    fn change(&mut self, change: &Change<MessageRow>) -> Result<(), AllocError> {
        match change {
            Change::Put(message) if message.state.is_none() => self.begin(message),
            Change::Put(message) => self.end(message.id.number()),
            Change::Remove(key) => self.end(number_of(*key)),
        }
    }

    fn begin_all(&mut self, messages: &[MessageRow]) -> Result<(), AllocError> {
        for message in messages {
            if message.state.is_none() {
                self.begin(message)?;
            }
        }
        Ok(())
    }

    fn note_all(&mut self, parts: &[PartRow]) -> Result<(), AllocError> {
        for part in parts {
            if !part.progress.is_done {
                self.note_part(part.id.number(), part.number, part.progress)?;
            }
        }
        Ok(())
    }

    fn change_all(&mut self, changes: &[Change<MessageRow>]) -> Result<(), AllocError> {
        for change in changes {
            self.change(change)?;
        }
        Ok(())
    }

    fn revise_all(&mut self, revisions: &[Revision<PartRow>]) -> Result<(), AllocError> {
        for revision in revisions {
            self.revise(revision)?;
        }
        Ok(())
    }

    fn at_place(&self, place: u128) -> Option<WaitingHandset> {
        self.shelves.get(&handset_at(place))?.figures()
    }

    // The first so many handsets, that for which most waits first.
    fn most(&self, alloc: Global, count: usize) -> Result<Vec<WaitingHandset>, AllocError> {
        let mut handsets = Vec::new(alloc);
        for place in self.most_first.iter().take(count) {
            if let Some(handset) = self.at_place(*place) {
                handsets.push(handset)?;
            }
        }
        Ok(handsets)
    }

    fn oldest(&self) -> Option<Pending> {
        match self.messages.first_key_value() {
            Some((_, pending)) => Some(*pending),
            None => None,
        }
    }
}

/// What is pending in a run. The keeper's thread changes it behind each commit, and whoever shows it looks at a few handsets.
#[derive(Drop)]
pub struct PendingTable {
    tally: Mutex<Tally>,
}

impl PendingTable {
    /// Nothing is pending.
    pub fn new(alloc: Global) -> PendingTable {
        PendingTable {
            tally: Mutex::new(Tally::new(alloc)),
        }
    }

    /// The run begins with these rows.
    ///
    /// # Errors
    /// There was no memory, and something that is pending is missing from now on.
    pub fn begin<R: Wait>(&self, rt: &R, rows: &Rows) -> Result<(), AllocError> {
        let mut tally = self.tally.lock(rt);
        tally.begin_all(rows.messages.as_slice())?;
        tally.note_all(rows.parts.as_slice())
    }

    /// A commit changed these rows.
    ///
    /// # Errors
    /// As `begin`.
    pub fn take<R: Wait>(&self, rt: &R, changes: &Changes) -> Result<(), AllocError> {
        let mut tally = self.tally.lock(rt);
        tally.change_all(changes.messages.as_slice())?;
        tally.revise_all(changes.parts.as_slice())
    }

    /// The first so many handsets for which parts wait, that for which most waits first.
    pub fn most<R: Wait>(
        &self,
        rt: &R,
        alloc: Global,
        count: usize,
    ) -> Result<Vec<WaitingHandset>, AllocError> {
        self.tally.lock(rt).most(alloc, count)
    }

    /// The oldest message that is pending: that of the smallest number.
    pub fn oldest<R: Wait>(&self, rt: &R) -> Option<Pending> {
        self.tally.lock(rt).oldest()
    }
}
