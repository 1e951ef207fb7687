//! The observers of a run: its log, and what its status page shows.
use crate::watching::Guard;
use sms_centre_spec::{Changes, Rows};
use sms_rows::keep::KeepError;
use smsc_cli::words::LogDetail;
use smsc_loop::Activity;
use smsc_observer::{Event, Observer};
use smsc_operation::access::Access;
use smsc_operation::feed::{Feed, Source, fed, is_of_messages};
use smsc_operation::gone::Gone;
use smsc_operation::logging::Log;
use smsc_service::{LinkBoard, MOST_REFUSED};
use std::alloc::{AllocError, Global};
use std::sync::atomic::{AtomicU64, Ordering};
use std::sync::{Arc, Wait};
use std::time::Clock;

/// The observers of a run.
#[derive(Drop)]
pub struct Watchers<R: Wait> {
    rt: R,
    alloc: Global,
    pub log: Arc<Log<R>>,
    // The log has lines of messages as they are accepted and end.
    logs_messages: bool,
    access: Option<Access>,
    // Where the keeper puts down of which messages handsets refuse parts.
    board: Arc<LinkBoard>,
    pub guard: Arc<Guard>,
    feed: Option<Feed<R>>,
    // When the commit under way began, and how long the last one took, in millionths of a second.
    began: AtomicU64,
    took: AtomicU64,
}

fn micros<R: Clock>(rt: &R) -> u64 {
    match rt.monotonic() {
        Ok(since) => since
            .as_secs()
            .saturating_mul(1_000_000)
            .saturating_add(u64::from(since.subsec_micros())),
        Err(_) => 0,
    }
}

impl<R: Wait> Watchers<R> {
    /// Where it is counted what the run forgets, if there is a status page.
    pub fn gone(&self) -> Result<Option<Arc<Gone>>, AllocError> {
        match &self.feed {
            Some(feed) => Ok(Some(Arc::try_clone(&feed.gone)?)),
            None => Ok(None),
        }
    }

    // What handsets refused since the commit before this one.
    fn take_refused(&self, access: &Access) {
        for place in 0..MOST_REFUSED {
            match self.board.take_refused(place) {
                Some(part) => access.refuse(&self.rt, part.id, part.cause),
                None => return,
            }
        }
    }

    /// The run begins with these rows.
    pub fn begin(&self, rows: &Rows) {
        if let Some(access) = &self.access {
            access.begin(&self.rt, rows);
        }
        if let Some(feed) = &self.feed {
            feed.begin(rows);
        }
    }
}

impl<R: Wait + Copy + Clock> Observer for Watchers<R> {
    fn observe(&self, event: &Event) {
        if self.logs_messages || !is_of_messages(event) {
            self.log.observe(event);
        }
        if let Some(feed) = &self.feed {
            feed.observe(event);
        }
    }

    fn watch(&self, seat: usize, activity: &Activity) {
        if let Some(feed) = &self.feed {
            feed.counters.watch(seat, activity);
        }
    }

    fn end_group(&self, count: usize) {
        if let Some(feed) = &self.feed {
            feed.counters.end_group(count);
        }
    }

    // What is committed is confirmed only if the files are those of the run before the commit and after it.
    fn begin_commit(&self) {
        self.guard.look();
        self.began.store(micros(&self.rt), Ordering::SeqCst);
    }

    fn end_commit(&self, refused: Option<KeepError>) {
        let took = micros(&self.rt).saturating_sub(self.began.load(Ordering::SeqCst));
        self.took.store(took, Ordering::SeqCst);
        self.guard.look();
        if let Some(error) = refused {
            self.guard.look_after_refusal(error);
        }
        if let Some(feed) = &self.feed {
            feed.end_commit(refused.is_none(), took);
        }
    }

    fn committed(&self, changes: &Changes) {
        if let Some(access) = &self.access {
            self.take_refused(access);
            let took = self.took.load(Ordering::SeqCst);
            access.take(&self.rt, self.alloc, &*self.log, changes, took);
        }
        if let Some(feed) = &self.feed {
            feed.committed(changes);
        }
    }
}

// What the observers of a run have, whether or not it has a status page.
fn watchers_of<R: Wait>(
    rt: R,
    alloc: Global,
    log: Arc<Log<R>>,
    detail: LogDetail,
    board: Arc<LinkBoard>,
    guard: Arc<Guard>,
    feed: Option<Feed<R>>,
) -> Watchers<R> {
    let access = match detail {
        LogDetail::Access => Some(Access::new(alloc)),
        LogDetail::Runs | LogDetail::Messages => None,
    };
    Watchers {
        rt,
        alloc,
        log,
        logs_messages: detail == LogDetail::Messages,
        access,
        board,
        guard,
        feed,
        began: AtomicU64::new(0),
        took: AtomicU64::new(0),
    }
}

/// The log alone.
pub fn log_alone<R: Wait>(
    rt: R,
    alloc: Global,
    log: Arc<Log<R>>,
    detail: LogDetail,
    board: Arc<LinkBoard>,
    guard: Arc<Guard>,
) -> Watchers<R> {
    watchers_of(rt, alloc, log, detail, board, guard, None)
}

/// The log and a status page, and what the thread of the page takes.
pub fn log_and_page<R: Wait + Copy>(
    rt: R,
    alloc: Global,
    log: Arc<Log<R>>,
    detail: LogDetail,
    board: Arc<LinkBoard>,
    guard: Arc<Guard>,
) -> Result<(Watchers<R>, Source), AllocError> {
    let (feed, source) = fed(rt, alloc, log.lost_lines()?)?;
    let watchers = watchers_of(rt, alloc, log, detail, board, guard, Some(feed));
    Ok((watchers, source))
}
