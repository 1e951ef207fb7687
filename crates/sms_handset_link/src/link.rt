//! Frames over the link.
ghost use Rattle.std.specs.Prelude.{◌≡◌, ◌++◌, ◌≤◌, ◌<◌, ◌+◌, ◌-◌, ℕ, List, map, length, option_map, None, Ok, IfOk, OnOk};
ghost use Rattle.std.specs.Str.{encode_utf8_all};
ghost use Rattle.std.specs.Io.KnownBytes.{Appends};
ghost use Rattle.sms_link.specs.framing.Framing.{framed, front_of, joined};
ghost use Rattle.sms_handset.specs.declared.event.HandsetEvent.TheVariants.{Tick as TickOf};
ghost use Rattle.sms_handset.specs.machine.Stepping.{MakesTheChanges};
ghost use Rattle.sms_handset_link.specs.Ends.{with_secret};
ghost use Rattle.sms_handset_link.specs.Run.{Meets, Sends, received, on_link};
ghost use Rattle.sms_handset.specs.machine.InMachine.{core_in};

use crate::run_error::LinkStop;
use sms_base::{Moment, OctetView, Octets, put_characters};
use sms_handset::machine::HandsetMachine;
use sms_handset::{Changes, HandsetEvent, Rows};
use sms_link::Outgoing;
use sms_link::framing::{FrameBuffer, is_frame, push_frame};
use sms_rows::keep::Keep;
use std::alloc::Global;
use std::io::Write;

fn write_out<W: Write>(link: &mut W, octets: &[u8]) -> Result<(), LinkStop>
    ensures { OnOk result (Appends (W.contents link.old) (W.contents link.new) octets.now) }
{
    match link.write_all(octets) {
        Ok(()) => Ok(()),
        Err(_) => Err(LinkStop::Broken),
    }
}

fn push(out: &mut Octets, frame: &[u8]) -> Result<(), LinkStop>
    ensures { OnOk result (out.new ≡ out.old ++ framed frame.now) }
{
    // The handset makes no longer ones.
    if !is_frame(frame) {
        return Err(LinkStop::Broken);
    }
    Ok(push_frame(out, frame)?)
}

// The octets of frames on the link.
fn octets_of(alloc: Global, frames: &[Outgoing]) -> Result<Octets, LinkStop>
    ensures { IfOk result (λ octets. octets ≡ on_link frames.now) }
{
    let mut out = Octets::new(alloc);
    for frame in frames {
        push(&mut out, frame.octets.as_slice())?;
    }
    Ok(out)
}

/// Sends frames, each behind its length, in one write.
pub(crate) fn send<W: Write>(
    alloc: Global,
    link: &mut W,
    frames: &[Outgoing],
) -> Result<(), LinkStop>
    ensures { OnOk result (Appends (W.contents link.old) (W.contents link.new) (on_link frames.now)) }
{
    let out = octets_of(alloc, frames)?;
    write_out(link, out.as_slice())
}

/// Sends the digits of the number to the centre, as the first frame, with the secret behind a space if there is one.
pub(crate) fn greet<W: Write>(
    alloc: Global,
    link: &mut W,
    digits: &[char],
    secret: Option<&[u8]>,
) -> Result<(), LinkStop>
    ensures { OnOk result (Appends (W.contents link.old) (W.contents link.new)
        (framed (with_secret (option_map (λ s. s.now) secret.entry) (encode_utf8_all digits.now)))) }
{
    let mut greeting = spelled(alloc, digits)?;
    push_secret(&mut greeting, secret)?;
    let mut out = Octets::new(alloc);
    push(&mut out, greeting.as_slice())?;
    write_out(link, out.as_slice())
}

fn push_secret(out: &mut Octets, secret: Option<&[u8]>) -> Result<(), LinkStop>
    ensures { OnOk result (out.new ≡ with_secret (option_map (λ s. s.now) secret.entry) out.old) }
{
    match secret {
        Some(secret) => {
            out.push(0x20)?;
            Ok(out.append(secret)?)
        }
        None => Ok(()),
    }
}

fn spelled(alloc: Global, digits: &[char]) -> Result<Octets, LinkStop>
    ensures { IfOk result (λ octets. octets ≡ encode_utf8_all digits.now) }
{
    let mut number = Octets::new(alloc);
    put_characters(&mut number, digits)?;
    Ok(number)
}

/// Lets time pass.
pub(crate) fn tick<K: Keep<Rows = Rows, Changes = Changes> + Drop, W: Write>(
    alloc: Global,
    machine: &mut HandsetMachine<K>,
    now: Moment,
    link: &mut W,
) -> Result<(), LinkStop>
    requires { MakesTheChanges K.after }
    ensures { OnOk result ((out : List ℕ) × (Sends (TickOf now) (core_in machine.old) (core_in machine.new) out
        × Appends (W.contents link.old) (W.contents link.new) out)) }
{
    let frames = machine.step(&HandsetEvent::Tick { now })?;
    send(alloc, link, frames.as_slice())
}

// Meets a frame that was received.
fn frame_received<K: Keep<Rows = Rows, Changes = Changes> + Drop, W: Write>(
    alloc: Global,
    machine: &mut HandsetMachine<K>,
    octets: OctetView<'_>,
    link: &mut W,
) -> Result<(), LinkStop>
    requires { MakesTheChanges K.after }
    ensures { OnOk result ((out : List ℕ) × (Sends (received octets.entry) (core_in machine.old) (core_in machine.new) out
        × Appends (W.contents link.old) (W.contents link.new) out)) }
{
    let frames = machine.step(&HandsetEvent::Frame { octets, tag: None })?;
    send(alloc, link, frames.as_slice())
}

/// Takes the whole frames of the buffer, at most so many, and cuts them off. It answers how many it may take then.
pub(crate) fn meet_frames<K: Keep<Rows = Rows, Changes = Changes> + Drop, W: Write>(
    alloc: Global,
    machine: &mut HandsetMachine<K>,
    buffer: &mut FrameBuffer,
    most: u32,
    link: &mut W,
) -> Result<u32, LinkStop>
    requires { MakesTheChanges K.after }
    ensures { IfOk result (λ left. (frames : List (List ℕ))
        × ((buffer.old ≡ joined frames ++ buffer.new) × Meets (map received frames) (core_in machine.old) (core_in machine.new) (W.contents link.old)
        (W.contents link.new) × (length frames + left ≡ most) × (0 < left → front_of buffer.new ≡ Ok None))) }
{
    let mut left = most;
    while left > 0 {
        match buffer.front()? {
            Some(octets) => frame_received(alloc, machine, octets, link)?,
            None => return Ok(left),
        }
        buffer.cut();
        left -= 1;
    }
    Ok(left)
}
