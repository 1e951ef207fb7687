//! What the threads of a run give to the thread of its status page.
use crate::gone::Gone;
use crossbeam_channel::{Receiver, Sender, bounded};
use sms_centre_spec::{Changes, Rows};
use smsc_loop::Note;
use smsc_observer::{Counters, Event, PendingTable};
use std::alloc::{AllocError, Global};
use std::sync::atomic::{AtomicU64, Ordering};
use std::sync::{Arc, Wait};
use std::time::Clock;

// So many events wait for the status page at most. What finds no room is counted.
const MOST_EVENTS: usize = 4096;

/// What the threads of a run give to the thread of its status page. None of them waits for it.
#[derive(Drop)]
pub struct Feed<R> {
    rt: R,
    /// What they count.
    pub counters: Arc<Counters>,
    pending: Arc<PendingTable>,
    /// What the run has forgotten.
    pub gone: Arc<Gone>,
    // What changes who sits where.
    seats: Sender<Event>,
    // That a message was accepted, or has ended.
    messages: Sender<Event>,
    // All else that is worth a line.
    others: Sender<Event>,
    lost: Arc<AtomicU64>,
}

/// What the thread of a status page takes.
#[derive(Drop)]
pub struct Source {
    /// What the threads of the run count.
    pub counters: Arc<Counters>,
    /// What is pending, by handset.
    pub pending: Arc<PendingTable>,
    /// What the run has forgotten.
    pub gone: Arc<Gone>,
    /// What changes who sits where.
    pub seats: Receiver<Event>,
    /// That a message was accepted, or has ended.
    pub messages: Receiver<Event>,
    /// All else that is worth a line.
    pub others: Receiver<Event>,
    /// How many events found no room.
    pub lost: Arc<AtomicU64>,
    /// How many lines of the log were lost.
    pub lost_lines: Arc<AtomicU64>,
}

// Whether the event may change who sits where.
fn is_of_seats(event: &Event) -> bool {
    matches!(
        event,
        Event::Endpoint(
            _,
            _,
            Note::Bound(_, _) | Note::Unbound | Note::LinkUp(_) | Note::Ended(_, _)
        )
    )
}

/// Whether a message was accepted, or has ended.
pub fn is_of_messages(event: &Event) -> bool {
    matches!(event, Event::Accepted(_, _) | Event::Final(_, _))
}

impl<R: Wait + Clock> Feed<R> {
    fn put(&self, event: &Event) {
        let sender = if is_of_seats(event) {
            &self.seats
        } else if is_of_messages(event) {
            &self.messages
        } else {
            &self.others
        };
        if sender.try_send(&self.rt, *event).is_err() {
            self.lost.fetch_add(1, Ordering::SeqCst);
        }
    }

    /// Counts what happened, and puts it where the thread of the page takes it. What finds no room there is counted.
    pub fn observe(&self, event: &Event) {
        self.counters.count(event);
        // A connection that never said who it is has no line, and a refused submit_sm is counted.
        if !matches!(event, Event::Unknown(_, _, _) | Event::SubmitRefused(_, _)) {
            self.put(event);
        }
    }

    /// A commit was made, or the store refused it. It took so many millionths of a second.
    pub fn end_commit(&self, is_done: bool, took: u64) {
        if is_done {
            self.counters.commit_took(took);
        } else {
            self.counters.commit_refused();
            self.gone.refuse(&self.rt);
        }
    }
}

impl<R: Wait> Feed<R> {
    // What is pending is counted where there is no memory for it.
    fn note(&self, noted: Result<(), AllocError>) {
        if noted.is_err() {
            self.lost.fetch_add(1, Ordering::SeqCst);
        }
    }

    /// The run begins with these rows.
    pub fn begin(&self, rows: &Rows) {
        self.note(self.pending.begin(&self.rt, rows));
    }

    /// A commit changed these rows.
    pub fn committed(&self, changes: &Changes) {
        self.note(self.pending.take(&self.rt, changes));
        self.gone.commit(&self.rt, changes);
    }
}

fn source_of(
    alloc: Global,
    seats: Receiver<Event>,
    messages: Receiver<Event>,
    others: Receiver<Event>,
    lost_lines: Arc<AtomicU64>,
) -> Result<Source, AllocError> {
    let counters = Counters::new(alloc)?;
    let counters = Arc::new(alloc, counters)?;
    let pending = Arc::new(alloc, PendingTable::new(alloc))?;
    let gone = Arc::new(alloc, Gone::new(alloc))?;
    let lost = Arc::new(alloc, AtomicU64::new(0))?;
    Ok(Source {
        counters,
        pending,
        gone,
        seats,
        messages,
        others,
        lost,
        lost_lines,
    })
}

fn feed_of<R: Copy>(
    rt: R,
    source: &Source,
    seats: Sender<Event>,
    messages: Sender<Event>,
    others: Sender<Event>,
) -> Result<Feed<R>, AllocError> {
    let counters = Arc::try_clone(&source.counters)?;
    let pending = Arc::try_clone(&source.pending)?;
    let gone = Arc::try_clone(&source.gone)?;
    let lost = Arc::try_clone(&source.lost)?;
    Ok(Feed {
        rt,
        counters,
        pending,
        gone,
        seats,
        messages,
        others,
        lost,
    })
}

/// What the threads of a run give, and what the thread of its status page takes. Another counts the lines that the log lost.
///
/// # Errors
/// There was no memory.
pub fn fed<R: Copy>(
    rt: R,
    alloc: Global,
    lost_lines: Arc<AtomicU64>,
) -> Result<(Feed<R>, Source), AllocError> {
    let (seats, seats_taken) = bounded::<Event, _>(alloc, MOST_EVENTS)?;
    let (messages, messages_taken) = bounded::<Event, _>(alloc, MOST_EVENTS)?;
    let (others, others_taken) = bounded::<Event, _>(alloc, MOST_EVENTS)?;
    let source = source_of(alloc, seats_taken, messages_taken, others_taken, lost_lines)?;
    let feed = feed_of(rt, &source, seats, messages, others)?;
    Ok((feed, source))
}
