//! What waits for a handset, and its link.
use crate::indexes::names::{START, message};
use crate::rows::{failed_at, holds};
use sms_base::{Holder, Kind, Listed, Moment, Msisdn};
use sms_centre_queue::queue::DeliveryQueue;
use sms_centre_rows::waiting::QueuedPart;
use sms_link::{LinkOut, Outgoing};
use std::alloc::{AllocError, Global};
use std::test::Fail;

// A step of a course of a queue.
#[derive(Clone, Copy)]
enum Step {
    // A part of a message, by its number and priority, is put, due in so many seconds.
    Puts(u32, u8, u8, u32),
    // Forty messages of one part are put.
    PutsMany,
    // After so many seconds the message with that part goes first.
    Next(u32, u64, u8),
    // Whether another one than the first part of message 1 waits then.
    Beside(u32, bool),
    Removes(u32, u8),
    // All is due after so many seconds.
    DueAt(u32),
    // That part is queued.
    Has(u32, u8),
    Withdraws(u32),
    // So many parts wait.
    Waits(usize),
    // The reference that comes next.
    Reference(u8),
    // References are given, from the first to the last.
    Gives(u8, u8),
    // The handset has a row.
    HasRow,
    Line(LinkStep),
}

// A step of the link, at so many seconds; one frame goes out where any is to.
#[derive(Clone, Copy)]
enum LinkStep {
    Raises,
    Lowers,
    // Whether the link is up.
    IsReady(bool),
    Begins,
    Fires(u32),
    Takes(&'static [u8]),
    Replies(u32),
}

fn part(start: Moment, id: u32, number: u8, priority: u8, seconds: u32) -> Option<QueuedPart> {
    Some(QueuedPart {
        id: message(id)?,
        number,
        reference: number,
        priority,
        due: start.plus(u64::from(seconds)),
    })
}

fn puts(queue: &mut DeliveryQueue, part: Option<QueuedPart>) -> bool {
    match part {
        Some(part) => queue.put(part).is_ok(),
        None => false,
    }
}

fn puts_many(queue: &mut DeliveryQueue, start: Moment) -> bool {
    for id in 1u32..41 {
        if !puts(queue, part(start, id, 1, 0, 0)) {
            return false;
        }
    }
    true
}

// The message that goes first, and the number of its part.
fn next(queue: &DeliveryQueue, now: Moment) -> (u64, u8) {
    match queue.next(now) {
        Some(queued) => (queued.id.number(), queued.number),
        None => (0, 0),
    }
}

fn waits_beside(queue: &DeliveryQueue, start: Moment, now: Moment) -> Option<bool> {
    let first = part(start, 1, 1, 0, 0)?;
    Some(queue.waits_beside(now, &first))
}

fn removes(queue: &mut DeliveryQueue, id: u32, number: u8) -> bool {
    match message(id) {
        Some(id) => queue.remove(id, number).is_ok(),
        None => false,
    }
}

fn has(queue: &DeliveryQueue, id: u32, number: u8) -> bool {
    match message(id) {
        Some(id) => queue.queued(id, number).is_some(),
        None => false,
    }
}

fn withdraws(queue: &mut DeliveryQueue, id: u32) -> bool {
    match message(id) {
        Some(id) => queue.withdraw(id).is_ok(),
        None => false,
    }
}

fn waits(queue: &DeliveryQueue, count: usize) -> bool {
    match queue.waiting() {
        Ok(waiting) => waiting.len() == count,
        Err(_) => false,
    }
}

fn gives(queue: &mut DeliveryQueue, start: Moment, first: u8, last: u8) -> bool {
    for reference in first..last.saturating_add(1) {
        let row = queue.row_or_new(1);
        if queue.give(row, reference, start).is_err() {
            return false;
        }
    }
    true
}

fn is_one(frames: Result<Listed<Outgoing>, AllocError>) -> bool {
    match frames {
        Ok(frames) => frames.len() == 1,
        Err(_) => false,
    }
}

fn sends_one(out: Result<LinkOut, AllocError>) -> bool {
    match out {
        Ok(out) => out.frames.len() == 1,
        Err(_) => false,
    }
}

fn raises(queue: &mut DeliveryQueue) -> bool {
    queue.raise();
    true
}

fn lowers(queue: &mut DeliveryQueue) -> bool {
    queue.lower();
    true
}

fn carries(queue: &mut DeliveryQueue, start: Moment, step: &LinkStep) -> bool {
    match step {
        LinkStep::Raises => raises(queue),
        LinkStep::Lowers => lowers(queue),
        LinkStep::IsReady(is_so) => queue.link().is_ready() == *is_so,
        LinkStep::Begins => is_one(queue.begin(start, 0, Holder::Entry(1), &[1, 0])),
        LinkStep::Fires(seconds) => sends_one(queue.fire(start.plus(u64::from(*seconds)))),
        LinkStep::Takes(frame) => sends_one(queue.take(frame)),
        LinkStep::Replies(seconds) => {
            let now = start.plus(u64::from(*seconds));
            is_one(queue.reply(now, Kind::Ack, 5, Holder::Entry(1), &[3, 5]))
        }
    }
}

fn goes(queue: &mut DeliveryQueue, start: Moment, step: &Step) -> bool {
    match step {
        Step::Puts(id, number, priority, seconds) => {
            puts(queue, part(start, *id, *number, *priority, *seconds))
        }
        Step::PutsMany => puts_many(queue, start),
        Step::Next(seconds, id, number) => {
            next(queue, start.plus(u64::from(*seconds))) == (*id, *number)
        }
        Step::Beside(seconds, is_so) => {
            waits_beside(queue, start, start.plus(u64::from(*seconds))) == Some(*is_so)
        }
        Step::Removes(id, number) => removes(queue, *id, *number),
        Step::DueAt(seconds) => queue.due_at(start.plus(u64::from(*seconds))).is_ok(),
        Step::Has(id, number) => has(queue, *id, *number),
        Step::Withdraws(id) => withdraws(queue, *id),
        Step::Waits(count) => waits(queue, *count),
        Step::Reference(reference) => {
            queue.next_reference(&queue.row_or_new(1), start) == Some(*reference)
        }
        Step::Gives(first, last) => gives(queue, start, *first, *last),
        Step::HasRow => queue.row().is_some(),
        Step::Line(step) => carries(queue, start, step),
    }
}

// A course: what a new queue does, what a copy of it does then, and what the queue does behind that.
type Course = (
    &'static str,
    &'static [Step],
    &'static [Step],
    &'static [Step],
);

const COURSES: &[Course] = &[
    // Message 1 in two parts, the second due in an hour, and message 2 of a higher priority, due in a minute.
    (
        "what waits goes in order",
        &[
            Step::Puts(1, 1, 0, 0),
            Step::Puts(1, 2, 0, 3_600),
            Step::Puts(2, 1, 1, 60),
            Step::Next(0, 1, 1),
            Step::Next(60, 2, 1),
            Step::Beside(0, false),
            Step::Beside(60, true),
            Step::Removes(2, 1),
            Step::DueAt(90),
            Step::Next(90, 1, 1),
            Step::Has(1, 2),
            Step::Withdraws(1),
            Step::Waits(0),
        ],
        &[],
        &[],
    ),
    // In the copy one more comes behind the others, and the first, which the queue has too, goes.
    (
        "a copy is changed alone",
        &[Step::PutsMany],
        &[
            Step::Puts(41, 1, 0, 0),
            Step::Waits(41),
            Step::Next(0, 1, 1),
            Step::Removes(1, 1),
            Step::Waits(40),
            Step::Next(0, 2, 1),
        ],
        &[Step::Waits(40), Step::Next(0, 1, 1)],
    ),
    (
        "references are given in turn",
        &[
            Step::Reference(0),
            Step::Gives(0, 0),
            Step::Reference(1),
            Step::HasRow,
            Step::Gives(1, 40),
            Step::Reference(41),
        ],
        &[],
        &[],
    ),
    // A transaction begins and is repeated by its timer; the handset's RP-SMMA is acknowledged and answered.
    (
        "a link carries both ways",
        &[
            Step::Line(LinkStep::Raises),
            Step::Line(LinkStep::IsReady(true)),
            Step::Line(LinkStep::Begins),
            Step::Line(LinkStep::Fires(10)),
            Step::Line(LinkStep::Takes(b"\x09\x01\x02\x06\x05")),
            Step::Line(LinkStep::Replies(20)),
        ],
        &[Step::Line(LinkStep::Fires(20))],
        &[
            Step::Line(LinkStep::Lowers),
            Step::Line(LinkStep::IsReady(false)),
        ],
    ),
];

// The place of the step that does not go so, if there is one.
fn failed(queue: &mut DeliveryQueue, start: Moment, steps: &[Step]) -> Option<usize> {
    for (at, step) in steps.iter().enumerate() {
        if !goes(queue, start, step) {
            return Some(at);
        }
    }
    None
}

fn copy_goes(queue: &DeliveryQueue, start: Moment, steps: &[Step]) -> bool {
    match queue.copy() {
        Ok(mut copy) => failed(&mut copy, start, steps).is_none(),
        Err(_) => false,
    }
}

fn go(queue: &mut DeliveryQueue, start: Moment, course: &Course) -> Result<(), Fail> {
    let (name, steps, on_a_copy, behind) = course;
    if let Some(at) = failed(queue, start, steps) {
        return Err(failed_at(name, at));
    }
    holds(
        copy_goes(queue, start, on_a_copy) && failed(queue, start, behind).is_none(),
        name,
    )
}

fn plays(alloc: Global, start: Moment, course: &Course) -> Result<(), Fail> {
    match Msisdn::of(b"447700900456") {
        Some(number) => {
            let mut queue = DeliveryQueue::new(alloc, number);
            let went = go(&mut queue, start, course);
            drop(queue);
            went
        }
        None => Err(Fail::new("no number")),
    }
}

#[test]
fn queues_go_as_told(rt: HostRuntime) -> Result<(), Fail> {
    let start = Moment::from_seconds(START)?;
    for course in COURSES {
        plays(rt.alloc(), start, course)?;
    }
    Ok(())
}
