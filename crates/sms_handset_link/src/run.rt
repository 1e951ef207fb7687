//! The run.
ghost use Rattle.std.specs.Prelude.{◌≡◌, ◌≤◌, ◌∷◌, ◌++◌, [], ℕ, List, length, map, option_map, false, IfOk, OnOk};
ghost use Rattle.std.specs.Io.KnownBytes.{Appends, Consumes};
ghost use Rattle.sms_link.specs.framing.Framing.{joined};
ghost use Rattle.sms_handset.specs.machine.Stepping.{MakesTheChanges};
ghost use Rattle.sms_handset_link.specs.Answering.{answers_to};
ghost use Rattle.sms_handset_link.specs.Asking.{event_of};
ghost use Rattle.sms_handset.specs.declared.event.HandsetEvent.TheVariants.{Tick as TickOf};
ghost use Rattle.sms_handset.specs.declared.event.HandsetEvent.{HandsetEvent as EventOf};
ghost use Rattle.sms_handset_link.specs.Run.{Meets, received};
ghost use Rattle.sms_handset_link.specs.Turns.{AreTimed, Attended, LeavesFor};
ghost use Rattle.sms_handset_link.specs.Ends.{IsRun, IsRunDone};
ghost use Rattle.sms_handset.specs.machine.InMachine.{core_in};

use crate::acts::act;
use crate::clock::Clock;
use crate::link::{greet, meet_frames, tick};
use crate::run_error::{LinkStop, RunError};
use sms_base::{Address, Moment};
use sms_handset::machine::HandsetMachine;
use sms_handset::{Changes, Rows};
use sms_link::framing::FrameBuffer;
use sms_rows::keep::Keep;
use sms_script::owner::OwnersAct;
use std::alloc::Global;
use std::io::{self, Read, Write};

// Octets that are read at once.
const ROOM: usize = 4096;

// Nothing arrived in time, or the read was interrupted: the link is still open.
fn is_pause(error: &io::Error) -> bool {
    matches!(
        error.kind(),
        io::ErrorKind::WouldBlock | io::ErrorKind::TimedOut | io::ErrorKind::Interrupted
    )
}

// Octets that arrived, or none where nothing arrived in time; whether the link is still open. It counts as closed only where nothing arrived.
fn receive<R: Read>(link: &mut R, buffer: &mut FrameBuffer) -> Result<bool, LinkStop>
    ensures octets { OnOk result ((octets : List ℕ)
        × ((length octets ≤ 4096) × Consumes (R.remaining link.old) (R.remaining link.new) octets × (buffer.new ≡ buffer.old ++ octets))) }
    ensures closed { IfOk result (λ is_open. is_open ≡ false → buffer.new ≡ buffer.old) }
{
    let mut room = [0; ROOM];
    match link.read(&mut room) {
        Ok(count) => {
            buffer.feed(&room[..count])?;
            Ok(count > 0)
        }
        Err(error) => Ok(is_pause(&error)),
    }
}

// Meets the time, and what the link brings, once; how many frames may follow then, none where the link closed.
fn turn<K: Keep<Rows = Rows, Changes = Changes> + Drop, R: Read, W: Write>(
    alloc: Global,
    machine: &mut HandsetMachine<K>,
    buffer: &mut FrameBuffer,
    link_in: &mut R,
    link_out: &mut W,
    now: Moment,
    most: u32,
) -> Result<u32, LinkStop>
    requires { MakesTheChanges K.after }
    ensures { IfOk result (λ left. (frames : List (List ℕ)) × (octets : List ℕ) × ((length octets ≤ 4096)
        × Consumes (R.remaining link_in.old) (R.remaining link_in.new) octets × (buffer.old ++ octets ≡ joined frames ++ buffer.new)
        × Meets (TickOf now ∷ map received frames) (core_in machine.old) (core_in machine.new) (W.contents link_out.old) (W.contents link_out.new)
        × LeavesFor most (length frames) octets buffer.new left)) }
{
    tick(alloc, machine, now, link_out)?;
    let connected = receive(link_in, buffer)?;
    let left = meet_frames(alloc, machine, buffer, most, link_out)?;
    if connected { Ok(left) } else { Ok(0) }
}

// Meets what the link brings, and the time, until so many frames were read or the link closed.
fn attend<K: Keep<Rows = Rows, Changes = Changes> + Drop, R: Read, W: Write, C: Clock>(
    alloc: Global,
    machine: &mut HandsetMachine<K>,
    link_in: &mut R,
    link_out: &mut W,
    clock: &C,
    most: u32,
) -> Result<(), LinkStop>
    requires { MakesTheChanges K.after }
    ensures { OnOk result ((rest : List ℕ) × Attended (C.reads clock.now) most (R.remaining link_in.old) (R.remaining link_in.new) rest
        (core_in machine.old) (core_in machine.new) (W.contents link_out.old) (W.contents link_out.new)) }
{
    let mut left = most;
    let mut buffer = FrameBuffer::new(alloc);
    for _turn in 0..u64::MAX {
        if left == 0 {
            return Ok(());
        }
        let now = clock.now();
        left = turn(alloc, machine, &mut buffer, link_in, link_out, now, left)?;
    }
    Ok(())
}

fn act_all<K: Keep<Rows = Rows, Changes = Changes> + Drop, W: Write, A: Write, C: Clock>(
    alloc: Global,
    machine: &mut HandsetMachine<K>,
    acts: &[OwnersAct<'_>],
    link: &mut W,
    answers: &mut A,
    clock: &C,
) -> Result<(), LinkStop>
    requires { MakesTheChanges K.after }
    ensures { OnOk result ((timed : List EventOf) × AreTimed (C.reads clock.now) (map event_of acts.now) timed
        × Meets timed (core_in machine.old) (core_in machine.new) (W.contents link.old) (W.contents link.new)
        × Appends (A.contents answers.old) (A.contents answers.new) (answers_to timed (core_in machine.old))) }
{
    for asked in acts {
        tick(alloc, machine, clock.now(), link)?;
        act(alloc, machine, asked, link, answers)?;
    }
    Ok(())
}

/// How a run ended.
#[derive(Clone, Copy, PartialEq, Eq)]
pub enum RunEnd {
    /// All frames have arrived, or the link closed.
    Done,
    /// A write of the link failed, which closes it.
    Broken,
}

/// Runs a handset over a link. It sends the digits of its number, with its secret if it has one, does what its owner asks, each answered by a line,
/// and takes frames. It ends after `frames` of them, or when the link closes.
///
/// A link whose reads give up after a while lets time pass. A read or a write of it that fails closes it.
pub fn run_handset<
    K: Keep<Rows = Rows, Changes = Changes> + Drop,
    R: Read,
    W: Write,
    A: Write,
    C: Clock,
>(
    alloc: Global,
    machine: &mut HandsetMachine<K>,
    number: &Address,
    secret: Option<&[u8]>,
    acts: &[OwnersAct<'_>],
    link_in: &mut R,
    link_out: &mut W,
    answers: &mut A,
    clock: &C,
    frames: u32,
) -> Result<RunEnd, RunError>
    requires { MakesTheChanges K.after }
    // What is on the link behind the first frame is what the definition puts there for what the owner asked, and then for the
    // frames that were read. Before each act, and at each read, is one tick. The handset is the one that all these lead to. The answers are
    // those of the acts, by how the handset is then. It is done once so many frames were met, or a read brought nothing.
    ensures { IfOk result (IsRun (C.reads clock.now) frames (map event_of acts.now) number.now (option_map (λ s. s.now) secret.entry)
        (core_in machine.old) (core_in machine.new) (R.remaining link_in.old)
        (R.remaining link_in.new) (W.contents link_out.old) (W.contents link_out.new) (A.contents answers.old) (A.contents answers.new)) }
{
    match run(
        alloc, machine, number, secret, acts, link_in, link_out, answers, clock, frames,
    ) {
        Ok(()) => Ok(RunEnd::Done),
        Err(LinkStop::Broken) => Ok(RunEnd::Broken),
        Err(LinkStop::Error(error)) => Err(error),
    }
}

fn run<K: Keep<Rows = Rows, Changes = Changes> + Drop, R: Read, W: Write, A: Write, C: Clock>(
    alloc: Global,
    machine: &mut HandsetMachine<K>,
    number: &Address,
    secret: Option<&[u8]>,
    acts: &[OwnersAct<'_>],
    link_in: &mut R,
    link_out: &mut W,
    answers: &mut A,
    clock: &C,
    frames: u32,
) -> Result<(), LinkStop>
    requires { MakesTheChanges K.after }
    ensures { OnOk result (IsRunDone (C.reads clock.now) frames (map event_of acts.now) number.now
        (option_map (λ s. s.now) secret.entry) (core_in machine.old) (core_in machine.new) (R.remaining link_in.old)
        (R.remaining link_in.new) (W.contents link_out.old) (W.contents link_out.new) (A.contents answers.old) (A.contents answers.new)) }
{
    greet(alloc, link_out, number.digits.as_slice(), secret)?;
    act_all(alloc, machine, acts, link_out, answers, clock)?;
    attend(alloc, machine, link_in, link_out, clock, frames)
}
