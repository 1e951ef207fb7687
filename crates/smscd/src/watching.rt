//! Whether the store's files are still those that were opened, on a disk that is there.
use sms_rows::keep::KeepError;
use sms_store_files::{FilesLook, OpenedFiles, are_still};
use smsc_operation::run_fault::{RunFault, lost_fault};
use smsc_operation::store_files::{StorePaths, is_full, look_at, probe_disk};
use smsc_server::Orders;
use std::io::{self, ErrorKind};
use std::sync::Arc;
use std::sync::atomic::{AtomicBool, AtomicI32, AtomicU64, Ordering};
use std::thread;
use std::time::Duration;

// It is looked whether the run has ended so many times a second.
const PAUSE: u64 = 250;

// And at the files once in so many of these.
const TURNS: u32 = 4;

// The system's numbers of want of memory, and of any other error that has none (ENOMEM, EIO).
const NO_MEMORY: i32 = 12;

const INPUT_OUTPUT: i32 = 5;

// By these a disk refuses what is written since it is lost or cut off: EIO, ENXIO, ENODEV, EROFS, EBADFD, ENOTCONN, ETIMEDOUT, EHOSTDOWN,
// EHOSTUNREACH, ESTALE.
const LOSSES: &[i32] = &[5, 6, 19, 30, 77, 107, 110, 112, 113, 116];

fn number_of(error: &io::Error) -> i32 {
    match error.kind() {
        ErrorKind::OutOfMemory => NO_MEMORY,
        _ => error.raw_os_error().unwrap_or(INPUT_OUTPUT),
    }
}

// By what a disk is lost that refused a commit so, and then some octets more so. A full one is waited for.
fn loss_of(refused: KeepError, probed: io::Result<()>) -> Option<io::Error> {
    match probed {
        Err(error) if is_full(&error) => None,
        Err(error) if LOSSES.contains(&number_of(&error)) => Some(error),
        Ok(()) | Err(_) => match refused {
            KeepError::Disk => Some(io::Error::from_raw_os_error(INPUT_OUTPUT)),
            _ => None,
        },
    }
}

/// Who sees whether the store's files are still those that the run opened, and can be looked at.
#[derive(Drop)]
pub struct Guard {
    host: HostRuntime,
    pub paths: StorePaths,
    opened: OpenedFiles,
    orders: Arc<Orders>,
    // The log was seen to have so many octets.
    seen: AtomicU64,
    is_replaced: AtomicBool,
    // The number of the error by which they could not be looked at, or their disk was lost; 0 without one.
    lost: AtomicI32,
}

impl Guard {
    /// Guards these files. Where they are others, it cuts the run that has the orders.
    pub fn new(
        host: HostRuntime,
        paths: StorePaths,
        opened: OpenedFiles,
        orders: Arc<Orders>,
    ) -> Guard {
        Guard {
            host,
            paths,
            opened,
            orders,
            seen: AtomicU64::new(0),
            is_replaced: AtomicBool::new(false),
            lost: AtomicI32::new(0),
        }
    }

    fn judge(&self, least: u64, look: &FilesLook) {
        if are_still(&self.opened, least, look) {
            self.seen.fetch_max(look.log_octets, Ordering::SeqCst);
            return;
        }
        self.is_replaced.store(true, Ordering::SeqCst);
        self.orders.cut();
    }

    // The first error is the one that is told.
    fn lose(&self, error: &io::Error) {
        let number = number_of(error);
        let _ = self
            .lost
            .compare_exchange(0, number, Ordering::SeqCst, Ordering::SeqCst);
        self.orders.cut();
    }

    /// Looks at both files. Where one was replaced, removed or shortened, or could not be looked at, all connections end, and nothing more
    /// is sent. The log may grow beside a look, so what it is compared with is taken first.
    pub fn look(&self) {
        let least = self.seen.load(Ordering::SeqCst);
        match look_at(&self.host, &self.paths) {
            Ok(look) => self.judge(least, &look),
            Err(error) => self.lose(&error),
        }
    }

    /// Judges the refusal of a commit. Where the disk is not full, and refused what was written or refuses some octets more, it is lost:
    /// then all connections end too. A disk that is cut off may still say where the files are, and take other files.
    pub fn look_after_refusal(&self, refused: KeepError) {
        if let Some(error) = loss_of(refused, probe_disk(&self.host, self.paths.log.as_str())) {
            self.lose(&error);
        }
    }

    /// Why the run was cut, if it was. Where the files could not be looked at, nobody knows whether they were replaced.
    pub fn fault(&self) -> Option<RunFault> {
        let lost = self.lost.load(Ordering::SeqCst);
        if lost != 0 {
            return Some(lost_fault(io::Error::from_raw_os_error(lost)));
        }
        if self.is_replaced.load(Ordering::SeqCst) {
            return Some(RunFault::StoreReplaced);
        }
        None
    }
}

/// Who looks at the store's files once a second, however little the run does.
#[derive(Drop)]
pub struct FileWatch {
    pub host: HostRuntime,
    pub guard: Arc<Guard>,
    /// The run has ended.
    pub over: Arc<AtomicBool>,
}

impl FileWatch {
    /// Looks at the files until the run has ended.
    pub fn look(&self) {
        for turn in 0..u32::MAX {
            if self.over.load(Ordering::SeqCst) {
                return;
            }
            if turn % TURNS == 0 {
                self.guard.look();
            }
            thread::sleep(&self.host, Duration::from_millis(PAUSE));
        }
    }
}
