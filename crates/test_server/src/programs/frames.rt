//! Frames in a stream: whole, in two pieces, octet by octet, faulty, and at their greatest size.
use crate::rows::holds;
use sms_base::Octets;
use sms_link::framing::{FrameBuffer, FramingFault, is_frame, push_frame};
use std::alloc::Global;
use std::test::Fail;

// CP-ACK, an answer of six octets and CP-ACK again, each behind its length.
const STREAM: [u8; 19] = [
    0x00, 0x02, 0x89, 0x04, 0x00, 0x09, 0x89, 0x01, 0x06, 0x02, 0x00, 0x41, 0x02, 0x00, 0x00, 0x00,
    0x02, 0x09, 0x04,
];

// The end of this frame, where it is that of the stream whose length stands at that place.
fn end_of(frame: &[u8], place: usize) -> Option<usize> {
    let start = place.saturating_add(2);
    let end = start.saturating_add(frame.len());
    if STREAM.get(start..end) == Some(frame) {
        Some(end)
    } else {
        None
    }
}

// The end of the frame at the front, or the place itself where no whole one is there.
fn end_of_front(buffer: &FrameBuffer, place: usize) -> Option<usize> {
    match buffer.front() {
        Ok(Some(frame)) => end_of(frame.as_slice(), place),
        Ok(None) => Some(place),
        Err(_) => None,
    }
}

// How many octets the frames at the front have together, which are cut off, and whether they are those of the stream
// from that place on.
fn cut_all(buffer: &mut FrameBuffer, place: usize) -> Option<usize> {
    let mut at = place;
    for _ in 0..4 {
        let end = end_of_front(buffer, at)?;
        if end == at {
            return Some(at);
        }
        at = end;
        buffer.cut();
    }
    None
}

// Whether the stream in two pieces gives its three frames.
fn is_cut_into(buffer: &mut FrameBuffer, first: &[u8], second: &[u8]) -> Option<bool> {
    buffer.feed(first).ok()?;
    let at = cut_all(buffer, 0)?;
    buffer.feed(second).ok()?;
    Some(cut_all(buffer, at)? == 19)
}

// Whether the stream, cut at a place, gives its three frames.
fn is_cut_at(alloc: Global, place: usize) -> bool {
    let (first, second) = STREAM.split_at(place.min(19));
    let mut buffer = FrameBuffer::new(alloc);
    is_cut_into(&mut buffer, first, second) == Some(true)
}

#[test]
fn frames_do_not_depend_on_cuts(rt: HostRuntime) -> Result<(), Fail> {
    for place in 0..20 {
        holds(is_cut_at(rt.alloc(), place), "a cut")?;
    }
    Ok(())
}

// What stands at the front: the octets of a frame, or what is said instead.
fn name_of_front(buffer: &FrameBuffer) -> &'static str {
    match buffer.front() {
        Ok(Some(_)) => "a frame",
        Ok(None) => "nothing",
        Err(FramingFault::Empty) => "empty",
        Err(FramingFault::TooLong) => "too long",
    }
}

fn front(alloc: Global, octets: &[u8]) -> &'static str {
    let mut buffer = FrameBuffer::new(alloc);
    match buffer.feed(octets) {
        Ok(()) => name_of_front(&buffer),
        Err(_) => "no memory",
    }
}

const FRONTS: &[(&[u8], &str)] = &[
    (&[], "nothing"),
    (&[0x00], "nothing"),
    (&[0xFF], "nothing"),
    (&[0x00, 0x00], "empty"),
    (&[0x00, 0xFC], "too long"),
    (&[0x01, 0x00], "too long"),
    (&[0xFF, 0xFF], "too long"),
    (&[0x00, 0xFB], "nothing"),
    (&[0x00, 0x01], "nothing"),
    (&[0x00, 0x01, 0x00], "a frame"),
];

#[test]
fn fronts_are_named(rt: HostRuntime) -> Result<(), Fail> {
    for (octets, wanted) in FRONTS {
        holds(front(rt.alloc(), octets) == *wanted, wanted)?;
    }
    Ok(())
}

// Whether that frame behind its length is the one frame of what was written.
fn is_put(out: &mut Octets, alloc: Global, frame: &[u8]) -> bool {
    is_frame(frame)
        && push_frame(out, frame).is_ok()
        && out.len() == frame.len() + 2
        && front(alloc, out.as_slice()) == "a frame"
}

// Whether so many octets, as a frame behind its length, are the one frame of what was written.
fn goes_through(alloc: Global, count: usize) -> bool {
    let frame = [0xA5; 252];
    let (frame, _) = frame.split_at(count.min(252));
    let mut out = Octets::new(alloc);
    is_put(&mut out, alloc, frame)
}

const SIZES: &[(usize, bool)] = &[(0, false), (1, true), (2, true), (251, true), (252, false)];

#[test]
fn frames_of_each_size_go_through(rt: HostRuntime) -> Result<(), Fail> {
    for (count, wanted) in SIZES {
        holds(goes_through(rt.alloc(), *count) == *wanted, "a size")?;
    }
    Ok(())
}
