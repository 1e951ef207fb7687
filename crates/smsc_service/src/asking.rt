//! What a job asks of the centre.
ghost use Rattle.std.specs.Prelude.{◌≡◌, None};
ghost use Rattle.smpp_pdu.specs.PduReading.{pdu_at};
ghost use Rattle.sms_centre_spec.specs.declared.event.CentreEvent.TheVariants.{Frame as FrameOf, LinkDown as LinkDownOf};
ghost use Rattle.sms_centre_spec.specs.declared.jobs.job.Job.TheVariants.{LinkUp as LinkUpOf};
ghost use Rattle.smsc_service.specs.Asking.{asked as asked_of, errand_asks as errand_asks_of, of_handset, question, read_as, submission, withdrawal};
ghost use Rattle.smsc_service.specs.Seats.{handset_at, seats_in};

use crate::new_account::NewAccount;
use crate::number::is_number;
use crate::seat_map::SeatMap;
use smpp_pdu::{Body, Pdu};
use sms_base::{Moment, Msisdn, OctetView, Octets};
use sms_centre_spec::jobs::Job;
use sms_centre_spec::{CentreEvent, Order};
use sms_keeper::Errand;

/// What is asked of the centre.
#[derive(Drop)]
pub enum SeatRequest<'a> {
    /// Something that happens to the centre.
    Event(CentreEvent<'a>),
    /// Nothing: its seat has no link, or its octets are no such request.
    Nothing,
    /// A link for a handset that has one at another seat.
    Taken,
    /// The centre looks at so many messages, from that number on, and forgets those that may go and ended before that moment.
    Forget {
        before: Moment,
        from: u64,
        most: u16,
    },
    /// The account is the last of the centre's accounts from now on.
    Enrol(NewAccount<'a>),
}

// ---- requests

fn submission(account: u8, body: Body<'_>) -> SeatRequest<'_>
    ensures asked { result ≡ submission account body.entry }
{
    match body {
        Body::SubmitSm(message) => SeatRequest::Event(CentreEvent::Submit { account, message }),
        _ => SeatRequest::Nothing,
    }
}

fn question(account: u8, body: Body<'_>) -> SeatRequest<'_>
    ensures asked { result ≡ question account body.entry }
{
    match body {
        Body::QuerySm(query) => SeatRequest::Event(CentreEvent::Query { account, query }),
        _ => SeatRequest::Nothing,
    }
}

fn withdrawal(account: u8, body: Body<'_>) -> SeatRequest<'_>
    ensures asked { result ≡ withdrawal account body.entry }
{
    match body {
        Body::CancelSm(cancel) => SeatRequest::Event(CentreEvent::Cancel { account, cancel }),
        _ => SeatRequest::Nothing,
    }
}

fn submitted(account: u8, pdu: &Octets) -> SeatRequest<'_>
    ensures asked { result ≡ read_as (submission account) (pdu_at pdu.entry.now) }
{
    match Pdu::read(pdu.as_slice()) {
        Ok(pdu) => submission(account, pdu.body),
        Err(_) => SeatRequest::Nothing,
    }
}

fn queried(account: u8, pdu: &Octets) -> SeatRequest<'_>
    ensures asked { result ≡ read_as (question account) (pdu_at pdu.entry.now) }
{
    match Pdu::read(pdu.as_slice()) {
        Ok(pdu) => question(account, pdu.body),
        Err(_) => SeatRequest::Nothing,
    }
}

fn cancelled(account: u8, pdu: &Octets) -> SeatRequest<'_>
    ensures asked { result ≡ read_as (withdrawal account) (pdu_at pdu.entry.now) }
{
    match Pdu::read(pdu.as_slice()) {
        Ok(pdu) => withdrawal(account, pdu.body),
        Err(_) => SeatRequest::Nothing,
    }
}

// ---- links

// A link for a handset is up.
fn raised(seat_map: &SeatMap, seat: u32, handset: Msisdn) -> SeatRequest<'static>
    ensures asked { result ≡ asked_of (seats_in seat_map.now) seat (LinkUpOf handset) }
{
    // The clause speaks of it.
    let _seat = seat;
    is_number(&handset);
    match seat_map.seat_of(handset) {
        Some(_) => SeatRequest::Taken,
        None => SeatRequest::Event(CentreEvent::LinkUp { handset }),
    }
}

// The link at the seat is down.
fn lowered(seat_map: &SeatMap, seat: u32) -> SeatRequest<'static>
    ensures asked { result ≡ of_handset (λ handset. LinkDownOf handset) (handset_at seat (seats_in seat_map.now).links) }
{
    let Some(handset) = seat_map.handset_at(seat) else {
        return SeatRequest::Nothing;
    };
    is_number(&handset);
    SeatRequest::Event(CentreEvent::LinkDown { handset })
}

// A frame is read on the link at the seat.
fn framed<'a>(seat_map: &SeatMap, seat: u32, octets: &'a Octets) -> SeatRequest<'a>
    ensures asked { result ≡ of_handset (λ handset. FrameOf handset octets.entry.now None) (handset_at seat (seats_in seat_map.now).links) }
{
    let Some(handset) = seat_map.handset_at(seat) else {
        return SeatRequest::Nothing;
    };
    is_number(&handset);
    SeatRequest::Event(CentreEvent::Frame {
        handset,
        octets: OctetView::of(octets.as_slice()),
        tag: None,
    })
}

/// What no seat asks of the centre.
pub(crate) fn errand_asks(errand: &Errand) -> SeatRequest<'_>
    ensures asked { result ≡ errand_asks_of errand.entry.now }
{
    match errand {
        Errand::Forget { before, from, most } => SeatRequest::Forget {
            before: *before,
            from: *from,
            most: *most,
        },
        Errand::Retry(id) => SeatRequest::Event(CentreEvent::Ordered {
            order: Order::Retry,
            id: *id,
        }),
        Errand::Delete(id) => SeatRequest::Event(CentreEvent::Ordered {
            order: Order::Delete,
            id: *id,
        }),
        Errand::Enrol(account) => SeatRequest::Enrol(NewAccount::of(account)),
    }
}

/// What the job of the seat asks of the centre.
pub fn job_asks<'a>(seat_map: &SeatMap, seat: u32, job: &'a Job) -> SeatRequest<'a>
    ensures asked { result ≡ asked_of (seats_in seat_map.now) seat job.entry.now }
{
    match job {
        Job::Bound { account, receives } => SeatRequest::Event(CentreEvent::Bound {
            session: seat,
            account: *account,
            receives: *receives,
        }),
        Job::Unbound => SeatRequest::Event(CentreEvent::Unbound { session: seat }),
        Job::Submit { account, pdu } => submitted(*account, pdu),
        Job::Query { account, pdu } => queried(*account, pdu),
        Job::Cancel { account, pdu } => cancelled(*account, pdu),
        Job::DeliverAnswered { id, is_accepted } => SeatRequest::Event(
            CentreEvent::DeliverAnswered {
                session: seat,
                id: *id,
                is_accepted: *is_accepted,
            },
        ),
        Job::LinkUp { handset } => raised(seat_map, seat, *handset),
        Job::LinkDown => lowered(seat_map, seat),
        Job::Frame { octets } => framed(seat_map, seat, octets),
    }
}
