//! The access log: a line of each message at its end, with what became of it, and never with what it says.
//!
//! A commit has the rows that it changes. So the run keeps how many parts each pending message has, how often they failed, and the last cause
//! by which a handset refused one, until the message has ended.
use crate::lines::{name_text, number_text};
use crate::logging::Log;
use sms_base::{FinalState, MessageId, Octets, Originator};
use sms_centre_rows::messages::{MessageRow, PartRow};
use sms_centre_rows::waiting::Revision;
use sms_centre_spec::{Changes, Rows};
use sms_rows::table::{Change, Key};
use smsc_status::{AccessLine, access_line};
use std::alloc::{AllocError, Global};
use std::collections::BTreeMap;
use std::sync::{Mutex, Wait};

// What is known of a pending message.
#[derive(Clone, Copy)]
struct Course {
    // How many parts it has.
    parts: u8,
    // How often the part failed that failed most often.
    failed: u8,
    // The last cause by which a handset refused a part, if it refused one.
    last_cause: Option<u8>,
}

const NO_COURSE: Course = Course {
    parts: 0,
    failed: 0,
    last_cause: None,
};

#[derive(Drop)]
struct Courses {
    by_message: BTreeMap<u64, Course>,
}

// The number of the message of a part's key.
fn message_of(key: Key) -> u64 {
    match u64::try_from(key.number() / 256) {
        Ok(number) => number,
        Err(_) => 0,
    }
}

impl Courses {
    fn at(&self, message: u64) -> Option<Course> {
        self.by_message.get(&message).copied()
    }

    // The message has at least so many parts, and one of them failed so often.
    fn put(&mut self, message: u64, number: u8, failed: u8) {
        let course = self.at(message).unwrap_or(NO_COURSE);
        let course = Course {
            parts: course.parts.max(number),
            failed: course.failed.max(failed),
            last_cause: course.last_cause,
        };
        let _ = self.by_message.insert(message, course);
    }

    // A handset refused a part of the message. One that is not pending has its line already.
    fn refuse(&mut self, message: u64, cause: u8) {
        if let Some(course) = self.at(message) {
            let course = Course {
                parts: course.parts,
                failed: course.failed,
                last_cause: Some(cause),
            };
            let _ = self.by_message.insert(message, course);
        }
    }

    fn put_part(&mut self, part: &PartRow) {
        self.put(part.id.number(), part.number, part.progress.attempts);
    }

    // A part of a message that is pending.
    fn put_known(&mut self, part: &PartRow) {
        if self.at(part.id.number()).is_some() {
            self.put_part(part);
        }
    }

    // A part of a message that has ended is none of these.
    fn take(&mut self, revision: &Revision<PartRow>) {
        match revision {
            Revision::Put(part) => self.put_part(part),
            Revision::Amend { key, progress } => {
                let message = message_of(*key);
                if self.at(message).is_some() {
                    self.put(message, 0, progress.attempts);
                }
            }
            Revision::Remove(_) => (),
        }
    }

    fn take_all(&mut self, revisions: &[Revision<PartRow>]) {
        for revision in revisions {
            self.take(revision);
        }
    }

    // The message has ended.
    fn end(&mut self, id: MessageId) -> Course {
        self.by_message.remove(&id.number()).unwrap_or(NO_COURSE)
    }
}

/// The access log of a run.
#[derive(Drop)]
pub struct Access {
    courses: Mutex<Courses>,
}

fn account_of(originator: &Originator) -> Option<&[u8]> {
    match originator {
        Originator::Application { account } => Some(account.as_slice()),
        Originator::Handset { .. } => None,
    }
}

fn line_of(
    alloc: Global,
    message: &MessageRow,
    state: FinalState,
    course: Course,
    micros: u64,
) -> Result<Octets, AllocError> {
    let source = name_text(alloc, &message.source.digits)?;
    let destination = number_text(alloc, &message.handset)?;
    access_line(
        alloc,
        &AccessLine {
            id: message.id,
            account: account_of(&message.originator),
            source: source.as_bytes(),
            destination: destination.as_bytes(),
            parts: u64::from(course.parts),
            submitted: message.submitted,
            ended: message.done.unwrap_or(message.submitted),
            state,
            failed_attempts: u64::from(course.failed),
            last_cause: course.last_cause,
            commit_micros: micros,
        },
    )
}

fn put_line<R: Wait + Copy>(log: &Log<R>, line: Result<Octets, AllocError>) {
    match line {
        Ok(octets) => match std::str::from_utf8(octets.as_slice()) {
            Ok(text) => log.put("info", text),
            Err(_) => log.lose(),
        },
        Err(_) => log.lose(),
    }
}

impl Access {
    /// No message is pending.
    pub fn new(alloc: Global) -> Access {
        Access {
            courses: Mutex::new(Courses {
                by_message: BTreeMap::new(alloc),
            }),
        }
    }

    /// The run begins with these rows.
    pub fn begin<R: Wait>(&self, rt: &R, rows: &Rows) {
        for message in rows.messages.as_slice() {
            if message.state.is_none() {
                self.courses.lock(rt).put(message.id.number(), 0, 0);
            }
        }
        for part in rows.parts.as_slice() {
            self.courses.lock(rt).put_known(part);
        }
    }

    /// A handset refused a part of this message by this cause, before the commit that is taken next.
    pub fn refuse<R: Wait>(&self, rt: &R, id: MessageId, cause: u8) {
        self.courses.lock(rt).refuse(id.number(), cause);
    }

    /// A commit changed these rows, and took so many millionths of a second.
    pub fn take<R: Wait + Copy>(
        &self,
        rt: &R,
        alloc: Global,
        log: &Log<R>,
        changes: &Changes,
        micros: u64,
    ) {
        self.courses.lock(rt).take_all(changes.parts.as_slice());
        for change in changes.messages.as_slice() {
            if let Change::Put(message) = change {
                self.end(rt, alloc, log, message, micros);
            }
        }
    }

    fn end<R: Wait + Copy>(
        &self,
        rt: &R,
        alloc: Global,
        log: &Log<R>,
        message: &MessageRow,
        micros: u64,
    ) {
        if let Some(state) = message.state {
            let course = self.courses.lock(rt).end(message.id);
            put_line(log, line_of(alloc, message, state, course, micros));
        }
    }
}
