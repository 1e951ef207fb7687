//! Which seats get which replies.
ghost use Rattle.std.specs.Prelude.{◌≡◌, [], ◌∷◌, ◌++◌, Some, OnOk, IfOk};
ghost use Rattle.sms_centre_spec.specs.Draft.{Core};
ghost use Rattle.sms_centre_spec.specs.declared.jobs.reply.Reply.TheVariants.{Taken};
ghost use Rattle.sms_centre_rows.specs.messages.Messages.{message_at, message_key};
ghost use Rattle.sms_centre.specs.state.CentreState.{Represents};
ghost use Rattle.sms_rows.specs.table.Table.{all_applied};
ghost use Rattle.smsc_service.specs.Seats.{seats_in};
ghost use Rattle.smsc_service.specs.Replies.{answer_out, end_of, failed as failed_of, for_seat, frame_out, frame_outs, is_that as is_that_of, nothing_by};
ghost use Rattle.smsc_service.specs.Replies.{receipt_out, receipt_outs, seat_for as seat_for_of, replies_at, vacancy as vacancy_of};
ghost use Rattle.sms_keeper.specs.declared.machine.Stimulus.TheVariants.{Job as JobOf};

use crate::ends::end_after;
use crate::seat_map::SeatMap;
use smpp_pdu::CommandStatus;
use sms_base::{Digits, Octets};
use sms_centre::{Centre, CentreAnswer, Plan};
use sms_centre_rows::reports::Delivery;
use sms_centre_rows::waiting::Sent;
use sms_centre_spec::jobs::{Job, Reply};
use sms_keeper::{Out, Outs};
use std::alloc::{AllocError, Global};

type Replies = Vec<Out<Reply>>;

/// The seat that asks, and the handset whose link is new there, if one is.
#[derive(Drop)]
pub struct Requester {
    pub risen: Option<Digits>,
    pub seat: usize,
}

fn is_that(risen: Option<Digits>, handset: Digits) -> bool
    ensures { result ≡ is_that_of risen handset }
{
    match risen {
        Some(other) => other == handset,
        None => false,
    }
}

// The seat of the handset's link.
fn seat_for(seat_map: &SeatMap, asker: &Requester, handset: Digits) -> Option<usize>
    ensures { result ≡ seat_for_of asker.now.risen asker.now.seat (seats_in seat_map.now).links handset }
{
    if is_that(asker.risen, handset) {
        return Some(asker.seat);
    }
    match seat_map.seat_of(handset) {
        Some(seat) => Some(seat as usize),
        None => None,
    }
}

// An answer is sent to the seat that asked.
fn answer(answer: Option<CentreAnswer>, seat: usize, outs: &mut Replies) -> Result<(), AllocError>
    ensures { OnOk result (outs.new.items ≡ outs.old.items ++ answer_out seat answer) }
{
    match answer {
        Some(answer) => {
            outs.push(Out {
                seat,
                out: Reply::Answer(answer),
            })?;
            Ok(())
        }
        None => Ok(()),
    }
}

fn frame_of(alloc: Global, seat: usize, octets: &[u8]) -> Result<Out<Reply>, AllocError>
    ensures { IfOk result (λ out. out ∷ [] ≡ frame_out (Some seat) octets.now) }
{
    let octets = Octets::copy_of(alloc, octets)?;
    Ok(Out {
        seat,
        out: Reply::Frame(octets),
    })
}

// A frame is sent to the seat of its handset's link, if it has one.
fn send(
    alloc: Global,
    seat_map: &SeatMap,
    asker: &Requester,
    sent: &Sent,
    outs: &mut Replies,
) -> Result<(), AllocError>
    ensures { OnOk result (outs.new.items ≡ outs.old.items ++ frame_out
        (seat_for_of asker.now.risen asker.now.seat (seats_in seat_map.now).links sent.now.handset) sent.now.frame.octets) }
{
    match seat_for(seat_map, asker, sent.handset) {
        Some(seat) => {
            let out = frame_of(alloc, seat, sent.frame.octets.as_slice())?;
            outs.push(out)?;
            Ok(())
        }
        None => Ok(()),
    }
}

fn send_all(
    alloc: Global,
    seat_map: &SeatMap,
    asker: &Requester,
    frames: &[Sent],
    outs: &mut Replies,
) -> Result<(), AllocError>
    ensures { OnOk result (outs.new.items ≡ outs.old.items ++ frame_outs asker.now.risen asker.now.seat (seats_in seat_map.now).links frames.now) }
{
    for sent in frames {
        send(alloc, seat_map, asker, sent, outs)?;
    }
    Ok(())
}

// A receipt is sent to the seat of its session.
fn deliver(
    centre: &Centre,
    planned: &Plan,
    delivery: &Delivery,
    outs: &mut Replies,
) -> Result<(), AllocError>
    ensures { (c : Core) → Represents c centre.now
        → OnOk result (outs.new.items ≡ outs.old.items ++ receipt_out delivery.now.session
        (end_of (message_at delivery.now.id (all_applied message_key planned.now.plan.changes.messages c.rows.messages)))) }
{
    match end_after(centre, planned, delivery.id)? {
        Some(end) => {
            outs.push(Out {
                seat: delivery.session as usize,
                out: Reply::Receipt(end),
            })?;
            Ok(())
        }
        None => Ok(()),
    }
}

fn deliver_all(
    centre: &Centre,
    planned: &Plan,
    deliveries: &[Delivery],
    outs: &mut Replies,
) -> Result<(), AllocError>
    ensures { (c : Core) → Represents c centre.now → OnOk result
        (outs.new.items ≡ outs.old.items ++ receipt_outs (all_applied message_key planned.now.plan.changes.messages c.rows.messages) deliveries.now) }
{
    for delivery in deliveries {
        deliver(centre, planned, delivery, outs)?;
    }
    Ok(())
}

/// The replies of a plan, for each seat: the answer that is told to the seat that asked, frames and receipts.
pub fn reply_outs(
    alloc: Global,
    seat_map: &SeatMap,
    asker: &Requester,
    centre: &Centre,
    planned: &Plan,
    told: Option<CentreAnswer>,
) -> Result<Replies, AllocError>
    ensures { (c : Core) → Represents c centre.now
        → IfOk result (λ outs. outs.items ≡ replies_at asker.now.risen asker.now.seat
        (seats_in seat_map.now).links told planned.now.plan.outputs.frames
        (all_applied message_key planned.now.plan.changes.messages c.rows.messages) planned.now.plan.outputs.deliveries) }
{
    let outputs = planned.outputs();
    let mut outs = Vec::new(alloc);
    answer(told, asker.seat, &mut outs)?;
    send_all(alloc, seat_map, asker, outputs.frames.as_slice(), &mut outs)?;
    deliver_all(centre, planned, outputs.deliveries.as_slice(), &mut outs)?;
    Ok(outs)
}

/// The reply of the seat for a job that failed: a request has an answer.
pub fn failed(seat: usize, job: &Job) -> Outs<Reply>
    ensures { result ≡ failed_of seat job.now }
{
    if job.is_request() {
        Outs::one(Out {
            seat,
            out: Reply::Answer(CentreAnswer::Refused(CommandStatus::ESME_RSYSERR)),
        })
    } else {
        Outs::none()
    }
}

/// The reply of the seat for a job that asks nothing: a request is told whether anybody is at the seat.
pub fn vacancy(seat_map: &SeatMap, seat: usize, job: &Job) -> Outs<Reply>
    ensures { result ≡ nothing_by (seats_in seat_map.now) (JobOf seat job.now) }
{
    if !job.is_request() {
        return Outs::none();
    }
    Outs::one(Out {
        seat,
        out: Reply::Answer(CentreAnswer::Refused(vacancy_status(seat_map, seat))),
    })
}

fn vacancy_status(seat_map: &SeatMap, seat: usize) -> CommandStatus
    ensures { result ≡ vacancy_of seat (seats_in seat_map.now) }
{
    if seat_map.is_vacant(seat) {
        CommandStatus::ESME_RINVMSGID
    } else {
        CommandStatus::ESME_RSYSERR
    }
}

/// The reply of the seat whose handset has a link at another one.
pub fn taken(seat: usize) -> Outs<Reply>
    ensures { result ≡ for_seat seat Taken }
{
    Outs::one(Out {
        seat,
        out: Reply::Taken,
    })
}
