//! Between a wire and its endpoint: octets.
ghost use Rattle.std.specs.Prelude.{◌≡◌, ◌⊎◌, true, false, is_ok, length, IfNone, IfOk};
ghost use Rattle.sms_seats.specs.declared.seat.Seat.{Seat};
ghost use Rattle.sms_centre_spec.specs.declared.jobs.job.Job.{Job};
ghost use Rattle.sms_centre_spec.specs.declared.jobs.reply.Reply.{Reply};
ghost use Rattle.smsc_loop.specs.Courses.{Did, standing};
ghost use Rattle.smsc_loop.specs.Duties.{stalled_by};
ghost use Rattle.smsc_loop.specs.Flowing.{answered_end, flowing_end, is_answered as is_answered_of};
ghost use Rattle.smsc_loop.specs.Phases.{Serves, behind};
ghost use Rattle.smsc_loop.specs.Served.{IsAnswered, MeantAt, side_end};
ghost use Rattle.smsc_loop.specs.declared.note.LeaveReason.TheVariants.{Closed};
ghost use Rattle.smsc_loop.specs.declared.turn_end.TurnEnd.TheVariants.{Stays, Rests, Leaves};

use crate::endpoint::Endpoint;
use crate::note::LeaveReason;
use crate::turn_end::TurnEnd;
use crate::wire::{Found, Wire};
use smpp_session::patience::Patience;
use std::alloc::AllocError;
use std::sync::Wait;

// So many octets may wait to be sent.
const MOST_OCTETS: usize = 1_048_576;

/// Sends what waits, and says how many octets were sent; none where the connection takes none any more.
pub(crate) fn send<W: Wire, G: Endpoint>(wire: &mut W, endpoint: &mut G) -> Option<usize>
    ensures did { (s : Seat Job Reply) → Did G.does (standing endpoint.old Serves (W.remaining wire.old) (W.written wire.old) s)
        (standing endpoint.new Serves (W.remaining wire.new) (W.written wire.new) s) }
    ensures none { IfNone result (W.closed wire.new ≡ true) }
{
    if endpoint.octets().is_empty() {
        return Some(0);
    }
    let count = wire.write_soon(endpoint.octets())?;
    endpoint.sent(count);
    Some(count)
}

// Whether nothing waits to be sent, and each request that was taken is answered.
fn is_answered<G: Endpoint>(endpoint: &G) -> bool
    ensures value { result ≡ is_answered_of (length (G.waits endpoint.now)) (G.owing endpoint.now) }
    ensures answered { result ≡ true → IsAnswered G.waits G.owing endpoint.now }
{
    endpoint.octets().is_empty() && !endpoint.owes()
}

// Whether an endpoint that is answered stays.
fn end_answered<W: Wire, G: Endpoint>(wire: &W, endpoint: &G) -> TurnEnd
    requires { IsAnswered G.waits G.owing endpoint.now }
    ensures ends { result ≡ answered_end (G.over endpoint.now) (W.ended wire.now) }
    ensures meant { MeantAt G.waits G.over G.owing (side_end (W.ended wire.now) (W.remaining wire.now)) (W.closed wire.now) endpoint.now result }
{
    if endpoint.is_over() {
        return TurnEnd::Leaves(LeaveReason::Over);
    }
    if wire.has_ended() {
        return TurnEnd::Leaves(LeaveReason::Closed);
    }
    TurnEnd::Stays
}

// Whether an endpoint stays whose octets the wire took, as far as it did.
fn end_flowing<W: Wire, G: Endpoint>(wire: &W, endpoint: &G) -> TurnEnd
    ensures ends { result ≡ flowing_end (length (G.waits endpoint.now)) (G.owing endpoint.now) (G.over endpoint.now) (W.ended wire.now) }
    ensures meant { MeantAt G.waits G.over G.owing (side_end (W.ended wire.now) (W.remaining wire.now)) (W.closed wire.now) endpoint.now result }
{
    // Also of a connection that takes some octets in every turn, but fewer than it asks for.
    if endpoint.octets().len() > MOST_OCTETS {
        return TurnEnd::Leaves(LeaveReason::Stalled);
    }
    if is_answered(endpoint) {
        return end_answered(wire, endpoint);
    }
    TurnEnd::Stays
}

// Notes whether the other side takes octets: so many were sent, and so many wait.
fn follow(patience: &mut Patience, sent: usize, left: usize, now: u64)
    ensures { patience.new ≡ record patience.old { stalled = stalled_by sent left now patience.old.stalled } }
{
    if left == 0 || sent > 0 {
        patience.flow();
    } else {
        patience.stall(now);
    }
}

/// Sends what waits, and says whether the endpoint stays.
pub(crate) fn flow<W: Wire, G: Endpoint>(
    wire: &mut W,
    endpoint: &mut G,
    patience: &mut Patience,
    now: u64,
) -> TurnEnd
    ensures did { (s : Seat Job Reply) → Did G.does (standing endpoint.old Serves (W.remaining wire.old) (W.written wire.old) s)
        (standing endpoint.new Serves (W.remaining wire.new) (W.written wire.new) s) }
    ensures meant { MeantAt G.waits G.over G.owing (side_end (W.ended wire.new) (W.remaining wire.new)) (W.closed wire.new) endpoint.new result }
    // Where the wire takes no octets any more, the endpoint leaves. Else what waits, owes and has ended decides alone.
    ensures ends { ((W.closed wire.new ≡ true) × (result ≡ Leaves Closed))
        ⊎ (result ≡ flowing_end (length (G.waits endpoint.new)) (G.owing endpoint.new) (G.over endpoint.new) (W.ended wire.new)) }
{
    let Some(sent) = send(wire, endpoint) else {
        return TurnEnd::Leaves(LeaveReason::Closed);
    };
    // Also where it can't be read any more, and nothing is to be sent.
    if wire.is_closed() {
        return TurnEnd::Leaves(LeaveReason::Closed);
    }
    follow(patience, sent, endpoint.octets().len(), now);
    end_flowing(wire, endpoint)
}

/// Reads, where the endpoint may be read. Says that it rests where nothing arrived.
pub(crate) fn read<R: Wait, W: Wire, G: Endpoint>(
    rt: &R,
    wire: &mut W,
    endpoint: &mut G,
    patience: &mut Patience,
    now: u64,
) -> Result<TurnEnd, AllocError>
    ensures did { (s : Seat Job Reply) → Did G.does (standing endpoint.old Serves (W.remaining wire.old) (W.written wire.old) s)
        (standing endpoint.new (behind (is_ok result) Serves) (W.remaining wire.new) (W.written wire.new) s) }
    ensures stays { IfOk result (λ end. (end ≡ Stays) ⊎ (end ≡ Rests)) }
{
    if endpoint.is_full() || endpoint.is_over() || wire.has_ended() {
        return Ok(TurnEnd::Rests);
    }
    match wire.read_now(rt) {
        Found::Some => {
            endpoint.take(wire.piece())?;
            patience.hear(now);
            Ok(TurnEnd::Stays)
        }
        Found::Nothing => Ok(TurnEnd::Rests),
        // The next turn sees it.
        Found::Ended => Ok(TurnEnd::Stays),
        Found::Lost => Ok(TurnEnd::Stays),
    }
}

/// Sends an endpoint that did not say who it is in time that it is given up, as far as it listens. False where memory was refused.
pub(crate) fn say_farewell<W: Wire, G: Endpoint>(wire: &mut W, endpoint: &mut G) -> bool
    ensures { (s : Seat Job Reply) → Did G.does (standing endpoint.old Serves (W.remaining wire.old) (W.written wire.old) s)
        (standing endpoint.new (behind result Serves) (W.remaining wire.new) (W.written wire.new) s) }
{
    match endpoint.give_up() {
        Ok(()) => {
            let _ = send(wire, endpoint);
            true
        }
        Err(_) => false,
    }
}
